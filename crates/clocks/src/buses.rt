// HCLK, the PCLKs and their timers: what is wanted, the row that is chosen, what is granted.
ghost use Rattle.std.specs.Prelude.{◌≡◌, ◌≤◌};
ghost use Rattle.clocks.specs.Derive.{wanted_of, hpre_of, cap_of, timclk_of, ahb_for, apb_for};
ghost use Rattle.clocks.specs.Inner.{Hclk, hpre_held};

use super::ratio::{divided, ratio_up};
use super::rows::{hpre_row, ppre_row};
use super::{Ahb, Apb, Prescaler, SystemClock};
use kinds::{Divider, Hertz};

// The smaller of `most` and the request (`own` without one).
#[tactic(auto, unfolding(crate::specs::Derive::wanted_of))]
fn wanted(most: Hertz, own: Hertz, q: Option<Hertz>) -> Hertz
    ensures { result.0 ≡ wanted_of most.0 own.0 q }
{
    Hertz(most.0.min(q.unwrap_or(own).0))
}

// HPRE's row for the HCLK wanted; the last for a request of 0.
#[tactic(auto, using(crate::proofs::Table::last_row, crate::proofs::Deriving::wanted_high), unfolding(crate::specs::Derive::hpre_of))]
fn hpre(s: SystemClock, q: Option<Hertz>) -> Prescaler<f32>
    ensures { result ≡ hpre_held (hpre_of s.hertz.0 (wanted_of s.hertz.0 s.hertz.0 q)) }
{
    let s = s.hertz;
    let w = wanted(s, s, q);
    if w.0 == 0 {
        Prescaler {
            div: 512.0,
            code: 15,
        }
    } else {
        hpre_row(ratio_up(s, w))
    }
}

#[tactic(auto, using(crate::proofs::Table::divider_power, crate::proofs::Table::divider_whole), unfolding(crate::specs::Derive::ahb_for))]
pub(crate) fn ahb(s: SystemClock, q: Option<Hertz>) -> Ahb
    ensures { result ≡ ahb_for s.hertz.0 q }
{
    let row = hpre(s, q);
    Ahb {
        hclk: Hertz(divided(s, row.div)),
        hpre: row.code,
    }
}

// A PCLK's cap: `lo` while SYSCLK is at most 180 MHz, else `hi`.
#[tactic(auto, unfolding(crate::specs::Derive::cap_of))]
pub(crate) fn cap(s: Hertz, lo: Hertz, hi: Hertz) -> Hertz
    ensures { result.0 ≡ cap_of s.0 lo.0 hi.0 }
{
    if s.0 <= 180000000 { lo } else { hi }
}

// A timer's clock: TIMPRE is taken as 0.
#[tactic(auto, unfolding(crate::specs::Derive::timclk_of))]
fn timclk(p: Hertz, d: Divider) -> Hertz
    requires { p.0 ≤ 216000000 }
    ensures { result.0 ≡ timclk_of p.0 d.0 }
{
    if d.0 == 1 { p } else { Hertz(2 * p.0) }
}

#[tactic(auto, using(crate::proofs::Deriving::wanted_range, crate::proofs::Deriving::ppre_pos), unfolding(crate::specs::Derive::apb_for))]
pub(crate) fn apb(most: Hertz, h: Hertz, q: Option<Hertz>) -> Apb
    requires { Hclk most.0 h.0 q }
    ensures { result ≡ apb_for most.0 h.0 q }
{
    let row = ppre_row(ratio_up(h, wanted(most, h, q)));
    let pclk = Hertz(h.0 / row.div.0);
    Apb {
        pclk,
        timclk: timclk(pclk, row.div),
        ppre: row.code,
    }
}
