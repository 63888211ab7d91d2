// Which divider puts a VCO into a window. `lo ≤ v / d` is tested as `lo × d ≤ v` and `v / d ≤ hi` as `v < (hi + 1) × d`.
ghost use Rattle.std.specs.Prelude.{◌≡◌, ◌+◌, ◌*◌};
ghost use Rattle.pll.specs.Walk.{p_dividers, q_dividers};
ghost use Rattle.pll.specs.Walk.{seek as seek_of};
ghost use Rattle.pll.specs.Skip.{dividers_of};
ghost use Rattle.pll.specs.Skip as spec;

use crate::{Side, Window};
use kinds::{Divider, Hertz};

const P_DIVIDERS: [u32; 4] = [8, 6, 4, 2];

// The largest P whose output is not below the window, or 0, a number with which `fitting` and `end` need no case of their own. A
// smaller one fits only where this one does.
#[tactic(auto, unfolding(crate::specs::Skip::highest))]
fn highest_p(lo: Hertz, v: u64) -> u32
    ensures { result ≡ spec.highest p_dividers lo.0 v }
{
    for d in &P_DIVIDERS {
        if u64::from(lo.0) * u64::from(*d) <= v {
            return *d;
        }
    }
    0
}

// The largest Q whose output is not below the window, or 0. By one division: up to fourteen products, as for P, take longer.
#[tactic(auto, using(crate::proofs::Dividers::highest_q))]
fn highest_q(lo: Hertz, v: u64) -> u32
    ensures { result ≡ spec.highest q_dividers lo.0 v }
{
    let l = u64::from(lo.0);
    if l * 15 <= v {
        return 15;
    }
    let d = v / l;
    if d < 2 { 0 } else { d as u32 }
}

// The first VCO that a divider puts past the window.
fn past(hi: Hertz, d: u32) -> u64
    ensures { result ≡ (hi.0 + 1) * d }
{
    (u64::from(hi.0) + 1) * u64::from(d)
}

// The divider, unless it puts the VCO past the window.
#[tactic(auto, unfolding(crate::specs::Skip::fit))]
fn fitting(hi: Hertz, d: u32, v: u64) -> Option<Option<Divider>>
    ensures { result ≡ spec.fit hi.0 d v }
{
    if v < past(hi, d) {
        Some(Some(Divider(d)))
    } else {
        None
    }
}

fn highest(s: Side, lo: Hertz, v: u64) -> u32
    ensures { result ≡ spec.highest (dividers_of s) lo.0 v }
{
    match s {
        Side::P => highest_p(lo, v),
        Side::Q => highest_q(lo, v),
    }
}

// The divider that the window gets, if one fits: none inside where there is no window.
#[tactic(auto, using(crate::proofs::Dividers::side_fit), unfolding(crate::specs::Walk::seek))]
pub(crate) fn seek(s: Side, w: Option<Window>, v: u64) -> Option<Option<Divider>>
    ensures { result ≡ seek_of (dividers_of s) w v }
{
    match w {
        None => Some(None),
        Some(x) => fitting(x.hi, highest(s, x.lo, v), v),
    }
}

// Where the VCOs up to v that fit the window end.
#[tactic(auto, unfolding(crate::specs::Skip::end))]
pub(crate) fn end(s: Side, w: Option<Window>, v: u64) -> u64
    ensures { result ≡ spec.end (dividers_of s) w v }
{
    match w {
        None => 432000001,
        Some(x) => past(x.hi, highest(s, x.lo, v)),
    }
}
