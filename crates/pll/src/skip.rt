// How far the walk may be cut short after a look that failed: to the next N that could be good.
ghost use Rattle.std.specs.Prelude.{◌≡◌, ◌*◌, ◌<◌, ◌≤◌, min, max};
ghost use Rattle.pll.specs.Skip as spec;

use crate::windows::end;
use crate::{Side, Window};
use kinds::Factor;

// Where the VCOs up to v that both windows take end; never below 50 MHz, where the walk leaves the M.
#[tactic(auto, unfolding(crate::specs::Skip::target))]
pub(crate) fn target(p: Option<Window>, q: Option<Window>, v: u64) -> u64
    ensures { result ≡ spec.target p q v }
{
    let w = v.min(432000000);
    let both = end(Side::P, p, w).min(end(Side::Q, q, w));
    both.clamp(50000000, 432000001)
}

// The greatest N below n whose VCO is below t, or 49, where the walk leaves the M.
#[tactic(auto, unfolding(crate::specs::Skip::jump))]
pub(crate) fn jump(u: u64, n: Factor, t: u64) -> Factor
    requires { (0 < u) × (50 ≤ n.0) × (n.0 ≤ 432) × (50000000 ≤ t) × (t ≤ 432000001) }
    ensures { result.0 ≡ spec.jump u n.0 t }
{
    let x = ((t + 15) / 16 * 1073741824 - 1) / u;
    let last = u64::from(n.0) - 1;
    Factor(last.min(x).max(49) as u32)
}
