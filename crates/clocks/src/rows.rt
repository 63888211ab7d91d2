// The rows of HPRE and PPRE, by ranges of the ratio: one match for each of document 01's two tables.
ghost use Rattle.std.specs.Prelude.{◌≡◌};
ghost use Rattle.clocks.specs.Rows.{hpre_row, ppre_row};
ghost use Rattle.clocks.specs.Inner.{hpre_held, ppre_held};

use super::Prescaler;
use kinds::Divider;

#[tactic(auto, using(crate::proofs::Table::hpre_rows))]
pub(crate) fn hpre_row(ratio: u32) -> Prescaler<f32>
    ensures { result ≡ hpre_held (hpre_row ratio) }
{
    match ratio {
        0 | 1 => Prescaler { div: 1.0, code: 0 },
        2 => Prescaler { div: 2.0, code: 8 },
        3..=5 => Prescaler { div: 4.0, code: 9 },
        6..=11 => Prescaler { div: 8.0, code: 10 },
        12..=39 => Prescaler {
            div: 16.0,
            code: 11,
        },
        40..=95 => Prescaler {
            div: 64.0,
            code: 12,
        },
        96..=191 => Prescaler {
            div: 128.0,
            code: 13,
        },
        192..=383 => Prescaler {
            div: 256.0,
            code: 14,
        },
        _ => Prescaler {
            div: 512.0,
            code: 15,
        },
    }
}

#[tactic(auto, using(crate::proofs::Table::ppre_rows))]
pub(crate) fn ppre_row(ratio: u32) -> Prescaler<Divider>
    ensures { result ≡ ppre_held (ppre_row ratio) }
{
    match ratio {
        0 | 1 => Prescaler {
            div: Divider(1),
            code: 0,
        },
        2 => Prescaler {
            div: Divider(2),
            code: 4,
        },
        3..=6 => Prescaler {
            div: Divider(4),
            code: 5,
        },
        7..=12 => Prescaler {
            div: Divider(8),
            code: 6,
        },
        _ => Prescaler {
            div: Divider(16),
            code: 7,
        },
    }
}
