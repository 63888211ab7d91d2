// A setter call by its number and its arguments as numbers: what the comparison with the Rust calls.
ghost use Rattle.std.specs.Prelude.{◌≡◌};
ghost use Rattle.calls.specs.Named as spec;

use super::Setter;
use kinds::{
    Divider, Factor, HSEClockMode, Hertz, LSEClockMode, MCO1, MCO2, MCOPRE, PLL48CLK, PLLP,
};

// The call that numbers name, or none: the setters in the order of include/woolturret.h; an argument that a setter does not have is
// passed over. By number, since C names a setter so.
#[tactic(auto, unfolding(crate::specs::Named::nth))]
pub fn call_of(setter: u32, a: u32, b: u32) -> Option<Setter>
    ensures { result ≡ spec.named_of setter a b }
{
    match setter {
        0 => Some(Setter::Hse(Hertz(a), HSEClockMode::try_from(b).ok()?)),
        1 => Some(Setter::Hclk(Hertz(a))),
        2 => Some(Setter::Sysclk(Hertz(a))),
        3 => Some(Setter::Pclk1(Hertz(a))),
        4 => Some(Setter::Pclk2(Hertz(a))),
        5 => Some(Setter::Lse(LSEClockMode::try_from(a).ok()?)),
        6 => Some(Setter::Lsi),
        7 => Some(Setter::UsePll),
        8 => Some(Setter::UsePll48clk(PLL48CLK::try_from(a).ok()?)),
        9 => Some(Setter::Pllm(Divider(a))),
        10 => Some(Setter::Plln(Factor(a))),
        11 => Some(Setter::Pllp(PLLP::try_from(a).ok()?)),
        12 => Some(Setter::Pllq(Divider(a))),
        13 => Some(Setter::UsePllsai),
        14 => Some(Setter::Pllsain(Factor(a))),
        15 => Some(Setter::Pllsaip(PLLP::try_from(a).ok()?)),
        16 => Some(Setter::Pllsaiq(Divider(a))),
        17 => Some(Setter::UsePlli2s),
        18 => Some(Setter::Plli2sn(Factor(a))),
        19 => Some(Setter::Plli2sq(Divider(a))),
        20 => Some(Setter::Plli2sr(Divider(a))),
        21 => Some(Setter::Mco1(MCO1::try_from(a).ok()?)),
        22 => Some(Setter::Mco1pre(MCOPRE::try_from(a).ok()?)),
        23 => Some(Setter::Mco2(MCO2::try_from(a).ok()?)),
        24 => Some(Setter::Mco2pre(MCOPRE::try_from(a).ok()?)),
        25 => Some(Setter::SetDefaults),
        _ => None,
    }
}
