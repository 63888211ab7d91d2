// Answers of pll_configure, calculate_clocks and plan as numbers.
ghost use Rattle.std.specs.Prelude.{◌≡◌};
ghost use Rattle.numbers.specs.Plans as spec;

use super::{CLOCKS, CONFIG, asked_hertz, config_numbers};
use clocks::Derived;
use configure::{Configured, Unplanned};
use plan::Planned;

// A refusal as it is told: its number, which may be any, and the passes of the search.
#[derive(Clone, Copy, PartialEq, Eq)]
pub struct Refused {
    pub number: u32,
    pub passes: u32,
}

impl From<Unplanned> for Refused {
    ghost from_gives = { λ unplanned refused. refused ≡ spec.refused_of unplanned };

    fn from(unplanned: Unplanned) -> Refused {
        Refused {
            number: u32::from(unplanned.refusal),
            passes: unplanned.passes,
        }
    }
}

// SYSCLK, HCLK, PCLK1, PCLK2, both timers; HPRE, PPRE1, PPRE2, wait states, scale, over-drive; 48 MHz valid, HSE, LSE, LSI.
#[tactic(auto, unfolding(crate::specs::Plans::clock_numbers))]
pub fn clock_numbers(derived: Derived) -> [u32; CLOCKS]
    ensures { result ≡ spec.clock_numbers derived.clocks derived.config }
{
    let Derived { clocks, config } = derived;
    [
        clocks.sysclk.0,
        clocks.hclk.0,
        clocks.pclk1.0,
        clocks.pclk2.0,
        clocks.timclk1.0,
        clocks.timclk2.0,
        u32::from(config.hpre),
        u32::from(config.ppre1),
        u32::from(config.ppre2),
        u32::from(config.flash_waitstates),
        u32::from(config.vos_scale),
        u32::from(config.overdrive),
        u32::from(clocks.pll48clk_valid),
        asked_hertz(clocks.hse),
        asked_hertz(clocks.lse),
        asked_hertz(clocks.lsi),
    ]
}

// The number of a refusal, which changes nothing lent but the passes.
fn refuse(refused: Refused, passes: &mut u32) -> u32
    ensures number { result ≡ refused.number }
    ensures passes { passes.new ≡ refused.passes }
{
    *passes = refused.passes;
    refused.number
}

pub fn configured(
    answer: Result<Configured, Refused>,
    config: &mut [u32; CONFIG],
    passes: &mut u32,
) -> u32
    ensures { spec.Configures (spec.configured_reply answer config.old) result config.new passes.new }
{
    match answer {
        Err(unconfigured) => refuse(unconfigured, passes),
        Ok(configured) => {
            *passes = configured.passes;
            *config = config_numbers(configured.cfgr);
            0
        }
    }
}

pub fn derived(answer: Result<Derived, u32>, clocks: &mut [u32; CLOCKS]) -> u32
    ensures { spec.Derives (spec.derived_reply answer clocks.old) result clocks.new }
{
    match answer {
        Err(number) => number,
        Ok(derived) => {
            *clocks = clock_numbers(derived);
            0
        }
    }
}

pub fn planned(
    answer: Result<Planned, Refused>,
    config: &mut [u32; CONFIG],
    clocks: &mut [u32; CLOCKS],
    passes: &mut u32,
) -> u32
    ensures { spec.Plans (spec.planned_reply answer config.old clocks.old) result config.new clocks.new passes.new }
{
    match answer {
        Err(unplanned) => refuse(unplanned, passes),
        Ok(planned) => {
            *passes = planned.passes;
            *config = config_numbers(planned.cfgr);
            *clocks = clock_numbers(planned.derived);
            0
        }
    }
}
