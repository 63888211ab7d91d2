// The settings of the main PLL: what an answer of the search makes of them.
ghost use Rattle.std.specs.Prelude.{◌≡◌};
ghost use Rattle.configure.specs.Configure.{pllp_of, with_p, with_q, off_of, taken_of, missed_of};

use super::{Configured, Unplanned};
use kinds::{CFGR, Divider, PLLP, Pll, Refusal};
use pll::{Miss, Pair};

// P as the Rust names a divider of 2, 4, 6 or 8. No TryFrom: the search finds no other, and an Err would have nowhere to go.
fn pllp_of(d: Divider) -> PLLP
    ensures { result ≡ pllp_of d.0 }
{
    match d.0 {
        2 => PLLP::Div2,
        4 => PLLP::Div4,
        6 => PLLP::Div6,
        _ => PLLP::Div8,
    }
}

fn with_p(pll: Pll, p: Option<Divider>) -> Pll
    ensures { result ≡ with_p pll p }
{
    p.map_or(
        pll,
        |d| Pll {
            use_pll: true,
            p: pllp_of(d),
            ..pll
        },
    )
}

fn with_q(pll: Pll, q: Option<Divider>) -> Pll
    ensures { result ≡ with_q pll q }
{
    q.map_or(pll, |q| Pll { q, ..pll })
}

pub(crate) fn off(mut cfgr: CFGR) -> CFGR
    ensures { result ≡ off_of cfgr }
{
    cfgr.pll.use_pll = false;
    cfgr
}

impl From<Miss> for Unplanned {
    ghost from_gives = { λ miss unplanned. unplanned ≡ missed_of miss };

    fn from(miss: Miss) -> Unplanned {
        match miss {
            Miss::BadInput => Unplanned {
                refusal: Refusal::Hse,
                passes: 0,
            },
            Miss::Nothing { passes } => Unplanned {
                refusal: Refusal::NoPair,
                passes,
            },
        }
    }
}

// What an answer of the search makes of a configuration.
#[tactic(auto, unfolding(crate::specs::Configure::taken_of))]
pub(crate) fn taken(cfgr: CFGR, found: Result<Pair, Miss>) -> Result<Configured, Unplanned>
    ensures { result ≡ taken_of cfgr found }
{
    let Pair { m, n, p, q, passes } = found?;
    let pll = with_q(with_p(Pll { m, n, ..cfgr.pll }, p), q);
    Ok(Configured {
        cfgr: CFGR { pll, ..cfgr },
        passes,
    })
}
