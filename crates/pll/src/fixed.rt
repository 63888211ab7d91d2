// Document 01, "Fixed point". All products fit 64 bits, also outside the search's limits on the VCO.
ghost use Rattle.std.specs.Prelude.{◌≡◌, ◌*◌, ◌<◌, ◌≤◌};
ghost use Rattle.pll.specs.Fixed.{recip_of, out_of};
ghost use Rattle.pll.specs.Skip.{unit_of, vco_by};

use kinds::{Divider, Factor, Hertz};

// r(d): 2^30 / d, rounded to the nearest whole number.
#[tactic(auto, unfolding(crate::specs::Fixed::recip_of))]
pub(crate) fn recip(d: Divider) -> u64
    requires { 0 < d.0 }
    ensures { result ≡ recip_of d.0 }
{
    (2147483648 / u64::from(d.0) + 1) / 2
}

// What does not change while N does: kept, so that a step of N costs no division.
#[tactic(auto, using(crate::proofs::Reciprocal::unit_le), unfolding(crate::specs::Skip::unit_of))]
pub(crate) fn unit(f: Hertz, m: Divider) -> u64
    requires { (f.0 ≤ 50000000) × (2 ≤ m.0) }
    ensures { result ≡ unit_of f.0 m.0 }
{
    u64::from(f.0 / 16) * recip(m)
}

// The VCO of a multiplier.
#[tactic(auto, unfolding(crate::specs::Skip::vco_by))]
pub(crate) fn vco(u: u64, n: Factor) -> u64
    requires { (u ≤ 3125000 * 536870912) × (n.0 ≤ 432) }
    ensures { result ≡ vco_by u n.0 }
{
    16 * (u64::from(n.0) * u / 1073741824)
}

// An output of a VCO with a divider.
#[tactic(auto, using(crate::proofs::Reciprocal::out_product), unfolding(crate::specs::Fixed::out_of))]
pub(crate) fn out(v: u64, d: Divider) -> u64
    requires { (v ≤ 10800000000) × (2 ≤ d.0) }
    ensures { result ≡ out_of v d.0 }
{
    16 * (v / 16 * recip(d) / 1073741824)
}
