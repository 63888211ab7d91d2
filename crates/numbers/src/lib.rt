// Answers as numbers in lent buffers, what the functions for C hand back; here a configuration as 30 numbers, group by group.
#![tactic(auto)]

pub mod answers;
pub mod plans;

ghost use Rattle.std.specs.Prelude.{◌≡◌};
ghost use Rattle.kinds.specs.Codes.{asked_hertz};
ghost use Rattle.numbers.specs.Numbers as spec;

use kinds::{CFGR, HSEClock, Hertz, LSEClockMode, PLL48CLK};

// How many numbers a configuration is, clocks with their field codes, and an answer of the search.
pub const CONFIG: usize = 30;

pub const CLOCKS: usize = 16;

pub const SEARCH: usize = 5;

// Kinds and choices by number, 0 for none: C reads them so. Each by its cases: a sum with the code would want its bound shown.
fn hse_kind(hse: Option<HSEClock>) -> u32
    ensures { result ≡ spec.hse_kind hse }
{
    match hse {
        None => 0,
        Some(HSEClock::Oscillator(_)) => 1,
        Some(HSEClock::Bypass(_)) => 2,
    }
}

// By its cases, as its definition has it.
fn hse_hertz(hse: Option<HSEClock>) -> u32
    ensures { result ≡ spec.hse_hertz hse }
{
    match hse {
        None => 0,
        Some(HSEClock::Oscillator(f) | HSEClock::Bypass(f)) => f.0,
    }
}

fn lse_kind(lse: Option<LSEClockMode>) -> u32
    ensures { result ≡ spec.lse_kind lse }
{
    match lse {
        None => 0,
        Some(LSEClockMode::Oscillator) => 1,
        Some(LSEClockMode::Bypass) => 2,
    }
}

fn asked(q: Option<Hertz>) -> u32
    ensures { result ≡ spec.asked_of q }
{
    u32::from(q.is_some())
}

pub(crate) fn asked_hertz(q: Option<Hertz>) -> u32
    ensures { result ≡ asked_hertz q }
{
    q.map_or(0, |f| f.0)
}

fn choice(k: Option<PLL48CLK>) -> u32
    ensures { result ≡ spec.choice_kind k }
{
    match k {
        None => 0,
        Some(PLL48CLK::Pllq) => 1,
        Some(PLL48CLK::Pllsai) => 2,
    }
}

#[tactic(auto, unfolding(crate::specs::Numbers::config_numbers))]
pub fn config_numbers(c: CFGR) -> [u32; CONFIG]
    ensures { result ≡ spec.config_numbers c }
{
    let CFGR {
        sources,
        requests,
        pll,
        sai,
        i2s,
        mco,
    } = c;
    [
        hse_kind(sources.hse),
        hse_hertz(sources.hse),
        lse_kind(sources.lse),
        u32::from(sources.lsi),
        asked(requests.hclk),
        asked_hertz(requests.hclk),
        asked(requests.sysclk),
        asked_hertz(requests.sysclk),
        asked(requests.pclk1),
        asked_hertz(requests.pclk1),
        asked(requests.pclk2),
        asked_hertz(requests.pclk2),
        u32::from(pll.use_pll),
        choice(pll.pll48clk),
        pll.m.0,
        pll.n.0,
        u32::from(pll.p),
        pll.q.0,
        u32::from(sai.use_pllsai),
        sai.n.0,
        u32::from(sai.p),
        sai.q.0,
        u32::from(i2s.use_plli2s),
        i2s.n.0,
        i2s.r.0,
        i2s.q.0,
        u32::from(mco.mco1),
        u32::from(mco.mco1pre),
        u32::from(mco.mco2),
        u32::from(mco.mco2pre),
    ]
}
