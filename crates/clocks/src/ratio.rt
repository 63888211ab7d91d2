// A ratio of two frequencies as an f32 division gives it, taken up to a whole number.
ghost use Rattle.std.specs.Prelude.{◌≡◌, ◌/◌, ◌<◌};
ghost use Rattle.clocks.specs.Ratio.{ratio_up};
ghost use Rattle.clocks.specs.Inner.{whole_of, PowerOfTwo};

use super::SystemClock;
use kinds::Hertz;
use std::num::{nearest_u32_to_f32, truncating_f32_to_u64};

// num / den, each rounded to an f32, divided in f32, and the quotient taken up to a whole number.
pub(crate) fn ratio_up(num: Hertz, den: Hertz) -> u32
    requires { (0 < num.0) × (num.0 < 268435456) × (0 < den.0) × (den.0 < 268435456) }
    ensures { result ≡ ratio_up num.0 den.0 }
{
    let q = nearest_u32_to_f32(num.0) / nearest_u32_to_f32(den.0);
    let t = truncating_f32_to_u64(q) as u32;
    if nearest_u32_to_f32(t) < q { t + 1 } else { t }
}

// SYSCLK / by, cut to a whole number: the division in f32 is exact.
pub(crate) fn divided(clock: SystemClock, by: f32) -> u32
    requires { PowerOfTwo by }
    ensures { result ≡ clock.hertz.0 / whole_of by }
{
    let q = nearest_u32_to_f32(clock.hertz.0) / by;
    truncating_f32_to_u64(q) as u32
}
