// The plan of a configuration: the check, pll_configure, calculate_clocks, then document 01's refusals 9 to 11.
#![tactic(auto)]

mod limits;

ghost use Rattle.std.specs.Prelude.{◌≡◌};
ghost use Rattle.plan.specs.Plan.{plan_of};

use clocks::{Derived, calculate_clocks};
use configure::{Configured, Unplanned, pll_configure};
use kinds::CFGR;
use limits::check_late;

// The configuration as planned, with its clocks and their field codes; and the passes of the search, 0 where none ran.
#[derive(Clone, Copy, PartialEq, Eq)]
pub struct Planned {
    pub cfgr: CFGR,
    pub passes: u32,
    pub derived: Derived,
}

// The plan, or a refusal of 1 to 7 or 9 to 11; nothing is stored.
#[tactic(auto, unfolding(crate::specs::Plan::plan_of, crate::specs::Plan::planned_of, crate::specs::Plan::clocked_of, crate::specs::Plan::limited_of, kinds::specs::Refusals::unless))]
pub fn plan(cfgr: CFGR) -> Result<Planned, Unplanned>
    ensures { result ≡ plan_of cfgr }
{
    // By match: what `?` hands on of an answer that holds a configuration is copied, on a refusal too.
    let Configured {
        cfgr: planned,
        passes,
    } = match pll_configure(cfgr) {
        Ok(configured) => configured,
        Err(unplanned) => return Err(unplanned),
    };
    let unplanned = |refusal| Unplanned { refusal, passes };
    let derived = calculate_clocks(planned).map_err(unplanned)?;
    check_late(planned).map_err(unplanned)?;
    Ok(Planned {
        cfgr: planned,
        passes,
        derived,
    })
}
