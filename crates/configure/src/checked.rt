// What planning makes of a configuration that no check refuses.
ghost use Rattle.std.specs.Prelude.{◌≡◌};
ghost use Rattle.configure.specs.Configure.{chosen_of};

use super::settings::{off, taken};
use super::windows::{fits, p_window, q_window};
use super::{Configured, Unplanned};
use pll::{Checked, calculate_mnpq};

// Neither window: the PLL is not used. A P window alone: where the present settings fit, nothing changes. Else the search runs.
#[tactic(auto, unfolding(crate::specs::Configure::chosen_of, crate::specs::Configure::settled_of, crate::specs::Configure::kept_of, crate::specs::Configure::base_in))]
pub(crate) fn settle(checked: Checked) -> Result<Configured, Unplanned>
    ensures { result ≡ chosen_of checked.cfgr }
{
    let cfgr = checked.cfgr;
    let (p, q) = (p_window(checked), q_window(checked));
    match (p, q) {
        (None, None) => Ok(Configured {
            cfgr: off(cfgr),
            passes: 0,
        }),
        (Some(_), None) if fits(checked) => Ok(Configured { cfgr, passes: 0 }),
        _ => taken(cfgr, calculate_mnpq(checked.base(), p, q)),
    }
}
