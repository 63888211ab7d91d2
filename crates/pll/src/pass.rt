// One pass of the walk: a look at a pair, whose VCO the caller has.
ghost use Rattle.std.specs.Prelude.{◌≡◌, ◌≤◌};
ghost use Rattle.pll.specs.Fixed.{vco_of};
ghost use Rattle.pll.specs.Walk as spec;

use crate::windows::seek;
use crate::{Look, Side, Window};
use kinds::{Divider, Factor, Hertz};

// Both sought: the pair is good, unless one is missed.
#[tactic(auto, unfolding(crate::specs::Walk::join))]
fn join(a: Option<Option<Divider>>, b: Option<Option<Divider>>) -> Look
    ensures { result ≡ spec.join a b }
{
    match (a, b) {
        (None, _) => Look::NextN,
        (Some(_), None) => Look::NextN,
        (Some(x), Some(y)) => Look::Good(x, y),
    }
}

// The limits of f / M are tested as products: a division would be the dearest step of a pass.
#[tactic(auto, using(crate::proofs::Looks::tested))]
pub(crate) fn look_at(
    f: Hertz,
    p: Option<Window>,
    q: Option<Window>,
    m: Divider,
    n: Factor,
    v: u64,
) -> Look
    requires { (2 ≤ m.0) × (v ≡ vco_of f.0 n.0 m.0) }
    ensures { result ≡ spec.look f.0 p q m.0 n.0 }
{
    if m.0 > 63 {
        return Look::Refuse;
    }
    if f.0 < 1000000 * m.0 {
        return Look::Refuse;
    }
    if f.0 >= 2000001 * m.0 {
        return Look::NextM;
    }
    if n.0 < 50 {
        return Look::NextM;
    }
    if v < 50000000 {
        return Look::NextM;
    }
    if v > 432000000 {
        return Look::NextN;
    }
    join(seek(Side::P, p, v), seek(Side::Q, q, v))
}
