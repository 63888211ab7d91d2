// Document 01, "Whether the PLL is used": pll_configure, the settings of the main PLL that a request comes to.
#![tactic(auto)]

mod checked;
mod settings;
mod windows;

ghost use Rattle.std.specs.Prelude.{◌≡◌};
ghost use Rattle.configure.specs.Configure.{configured_of};

use checked::settle;
use kinds::{CFGR, Refusal};
use pll::Checked;

// The configuration as planned; with the passes of the search, 0 where none ran.
#[derive(Clone, Copy, PartialEq, Eq)]
pub struct Configured {
    pub cfgr: CFGR,
    pub passes: u32,
}

// Why there is none, and the passes: 1 to 7 of document 01's refusals.
#[derive(Clone, Copy, PartialEq, Eq)]
pub struct Unplanned {
    pub refusal: Refusal,
    pub passes: u32,
}

// Whether the PLL is used, and with which settings.
#[tactic(auto, unfolding(crate::specs::Configure::configured_of, kinds::specs::Refusals::unless))]
pub fn pll_configure(cfgr: CFGR) -> Result<Configured, Unplanned>
    ensures { result ≡ configured_of cfgr }
{
    // By match: what `?` and `map_err` hand on of an answer that holds a configuration is copied, on a refusal too.
    match Checked::try_from(cfgr) {
        Ok(checked) => settle(checked),
        Err(refusal) => Err(Unplanned { refusal, passes: 0 }),
    }
}
