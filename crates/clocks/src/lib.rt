// Document 01, "Derived clocks": the clocks that a configuration's settings give as they stand. The names are those of rcc.rs.
#![tactic(auto)]

mod buses;
mod checked;
mod power;
mod ratio;
mod rows;
mod sources;

ghost use Rattle.std.specs.Prelude.{◌≡◌};
ghost use Rattle.clocks.specs.Derive.{clocks_by, config_by, derived_of};
ghost use Rattle.clocks.specs.Inner.{Sysclk};

use checked::settled;
use kinds::{CFGR, Hertz, Refusal, Sources};
use pll::Checked;

// The frozen clocks.
#[derive(Clone, Copy, PartialEq, Eq)]
pub struct Clocks {
    pub hclk: Hertz,
    pub pclk1: Hertz,
    pub pclk2: Hertz,
    pub sysclk: Hertz,
    pub timclk1: Hertz,
    pub timclk2: Hertz,
    pub pll48clk_valid: bool,
    pub hse: Option<Hertz>,
    pub lse: Option<Hertz>,
    pub lsi: Option<Hertz>,
}

// The field codes that grant them, by number as the start-up stores them and C gets them; vos_scale is the scale's number.
#[derive(Clone, Copy, PartialEq, Eq)]
pub struct InternalRCCConfig {
    pub hpre: u8,
    pub ppre1: u8,
    pub ppre2: u8,
    pub flash_waitstates: u8,
    pub overdrive: bool,
    pub vos_scale: u8,
}

// The clocks of a configuration, with their field codes.
#[derive(Clone, Copy, PartialEq, Eq)]
pub struct Derived {
    pub clocks: Clocks,
    pub config: InternalRCCConfig,
}

// A SYSCLK that every HPRE divider leaves something of.
#[derive(Clone, Copy)]
struct SystemClock {
    hertz: Hertz,
    ghost divides: { Sysclk hertz.0 },
}

// A divider and the field code that selects it: HPRE's divides SYSCLK and is held as an f32, a PPRE's divides HCLK.
#[derive(Clone, Copy)]
struct Prescaler<D> {
    div: D,
    code: u8,
}

// HCLK with HPRE's code; a PCLK with its timers' clock and PPRE's code.
#[derive(Clone, Copy)]
struct Ahb {
    hclk: Hertz,
    hpre: u8,
}

#[derive(Clone, Copy)]
struct Apb {
    pclk: Hertz,
    timclk: Hertz,
    ppre: u8,
}

// What a SYSCLK grants.
#[derive(Clone, Copy)]
struct Granted {
    sysclk: Hertz,
    ahb: Ahb,
    apb1: Apb,
    apb2: Apb,
}

impl Granted {
    // The clocks that are handed back.
    fn frozen(self, sources: Sources, valid: bool) -> Clocks
        ensures { result ≡ clocks_by self.sysclk.0 self.ahb self.apb1 self.apb2 sources valid }
    {
        Clocks {
            hclk: self.ahb.hclk,
            pclk1: self.apb1.pclk,
            pclk2: self.apb2.pclk,
            sysclk: self.sysclk,
            timclk1: self.apb1.timclk,
            timclk2: self.apb2.timclk,
            pll48clk_valid: valid,
            hse: sources::hse(sources.hse),
            lse: sources::lse(sources.lse),
            lsi: sources::lsi(sources.lsi),
        }
    }

    // Their field codes.
    fn codes(self) -> InternalRCCConfig
        ensures { result ≡ config_by self.sysclk.0 self.ahb self.apb1 self.apb2 }
    {
        InternalRCCConfig {
            hpre: self.ahb.hpre,
            ppre1: self.apb1.ppre,
            ppre2: self.apb2.ppre,
            flash_waitstates: power::flash_waitstates(self.sysclk),
            overdrive: power::overdrive(self.sysclk),
            vos_scale: power::vos_scale(self.sysclk),
        }
    }
}

// The clocks of a configuration whose settings are taken as they stand: checked, and derived where nothing is refused.
#[tactic(auto, unfolding(crate::specs::Derive::derived_of, kinds::specs::Refusals::unless))]
pub fn calculate_clocks(cfgr: CFGR) -> Result<Derived, Refusal>
    ensures { result ≡ derived_of cfgr }
{
    settled(Checked::try_from(cfgr)?)
}
