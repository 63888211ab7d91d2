// The walk, in jumps over looks that fail; the passes jumped over are counted.
ghost use Rattle.std.specs.Prelude.{◌≡◌, ◌≤◌};
ghost use Rattle.pll.specs.Walk.{whole_walk};

use crate::fixed::{unit, vco};
use crate::pass::look_at;
use crate::skip::{jump, target};
use crate::{Look, Miss, Pair, Window};
use kinds::{Divider, Factor, Hertz};

pub(crate) fn search(f: Hertz, p: Option<Window>, q: Option<Window>) -> Result<Pair, Miss>
    requires { (1000000 ≤ f.0) × (f.0 ≤ 50000000) }
    ensures { result ≡ whole_walk f.0 p q }
{
    let mut m: u32 = 2;
    let mut n: u32 = 432;
    let mut passes: u32 = 1;
    let mut u = unit(f, Divider(2));
    // No index is counted: each look says how far the next one lies, and which M it is of.
    loop {
        let v = vco(u, Factor(n));
        let l = look_at(f, p, q, Divider(m), Factor(n), v);
        match l {
            Look::Refuse => {
                return Err(Miss::Nothing { passes });
            }
            Look::NextM => {
                m += 1;
                n = 432;
                passes += 1;
                u = unit(f, Divider(m));
            }
            Look::NextN => {
                let t = target(p, q, v);
                let j = jump(u, Factor(n), t);
                passes += n - j.0;
                n = j.0;
            }
            Look::Good(a, b) => {
                return Ok(Pair {
                    m: Divider(m),
                    n: Factor(n),
                    p: a,
                    q: b,
                    passes,
                });
            }
        }
    }
}
