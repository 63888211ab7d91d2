// What a clock request is made of: frequencies, dividers, choices, and the configuration that holds them.
// Document 01, "Taken and left"; the names are those of rcc.rs where it has one.
#![tactic(auto)]

pub mod codes;
pub mod limits;
mod refusals;
mod setters;

ghost use Rattle.std.specs.Prelude.{◌≡◌};
ghost use Rattle.kinds.specs.Config.{defaults, input_of};
ghost use Rattle.kinds.specs.Setters.{hse_of};

pub use refusals::Refusal;

// A frequency in hertz, a divider and a multiplication factor: none is passed for another.
#[derive(Clone, Copy, PartialEq, Eq)]
pub struct Hertz(pub u32);

#[derive(Clone, Copy, PartialEq, Eq)]
pub struct Divider(pub u32);

#[derive(Clone, Copy, PartialEq, Eq)]
pub struct Factor(pub u32);

#[derive(Clone, Copy, PartialEq, Eq)]
pub enum HSEClockMode {
    Oscillator,
    Bypass,
}

#[derive(Clone, Copy, PartialEq, Eq)]
pub enum HSEClock {
    Oscillator(Hertz),
    Bypass(Hertz),
}

// As HSE's modes, and a type of its own as in the Rust: neither is passed for the other.
#[derive(Clone, Copy, PartialEq, Eq)]
pub enum LSEClockMode {
    Oscillator,
    Bypass,
}

#[derive(Clone, Copy, PartialEq, Eq)]
pub enum PLL48CLK {
    Pllq,
    Pllsai,
}

// The P divider of the main PLL and of PLLSAI: one type for what the Rust has twice.
#[derive(Clone, Copy, PartialEq, Eq)]
pub enum PLLP {
    Div2,
    Div4,
    Div6,
    Div8,
}

#[derive(Clone, Copy, PartialEq, Eq)]
pub enum MCO1 {
    Hsi,
    Lse,
    Hse,
    Pll,
}

#[derive(Clone, Copy, PartialEq, Eq)]
pub enum MCO2 {
    Sysclk,
    Plli2s,
    Hse,
    Pll,
}

#[derive(Clone, Copy, PartialEq, Eq)]
pub enum MCOPRE {
    Div1,
    Div2,
    Div3,
    Div4,
    Div5,
}

#[derive(Clone, Copy, PartialEq, Eq)]
pub struct Sources {
    pub hse: Option<HSEClock>,
    pub lse: Option<LSEClockMode>,
    pub lsi: bool,
}

#[derive(Clone, Copy, PartialEq, Eq)]
pub struct Requests {
    pub hclk: Option<Hertz>,
    pub sysclk: Option<Hertz>,
    pub pclk1: Option<Hertz>,
    pub pclk2: Option<Hertz>,
}

// The flag of each PLL stands beside its settings: `check_of` holds these to their limits where it is off too.
#[derive(Clone, Copy, PartialEq, Eq)]
pub struct Pll {
    pub use_pll: bool,
    pub pll48clk: Option<PLL48CLK>,
    pub m: Divider,
    pub n: Factor,
    pub p: PLLP,
    pub q: Divider,
}

#[derive(Clone, Copy, PartialEq, Eq)]
pub struct Sai {
    pub use_pllsai: bool,
    pub n: Factor,
    pub p: PLLP,
    pub q: Divider,
}

#[derive(Clone, Copy, PartialEq, Eq)]
pub struct I2s {
    pub use_plli2s: bool,
    pub n: Factor,
    pub r: Divider,
    pub q: Divider,
}

#[derive(Clone, Copy, PartialEq, Eq)]
pub struct Mco {
    pub mco1: MCO1,
    pub mco1pre: MCOPRE,
    pub mco2: MCO2,
    pub mco2pre: MCOPRE,
}

// The configuration, by groups.
#[derive(Clone, Copy, PartialEq, Eq)]
pub struct CFGR {
    pub sources: Sources,
    pub requests: Requests,
    pub pll: Pll,
    pub sai: Sai,
    pub i2s: I2s,
    pub mco: Mco,
}

// Why a setter refused, and the configuration as it came.
#[derive(Clone, Copy, PartialEq, Eq)]
pub struct Unset {
    pub refusal: Refusal,
    pub cfgr: CFGR,
}

impl HSEClock {
    pub fn new(freq: Hertz, mode: HSEClockMode) -> HSEClock
        ensures { result ≡ hse_of freq mode }
    {
        match mode {
            HSEClockMode::Oscillator => HSEClock::Oscillator(freq),
            HSEClockMode::Bypass => HSEClock::Bypass(freq),
        }
    }
}

impl CFGR {
    // The Rust's defaults.
    pub fn constrain() -> CFGR
        ensures { result ≡ defaults }
    {
        CFGR {
            sources: Sources {
                hse: None,
                lse: None,
                lsi: false,
            },
            requests: Requests {
                hclk: None,
                sysclk: None,
                pclk1: None,
                pclk2: None,
            },
            pll: Pll {
                use_pll: false,
                pll48clk: None,
                m: Divider(2),
                n: Factor(50),
                p: PLLP::Div2,
                q: Divider(2),
            },
            sai: Sai {
                use_pllsai: false,
                n: Factor(192),
                p: PLLP::Div2,
                q: Divider(2),
            },
            i2s: I2s {
                use_plli2s: false,
                n: Factor(192),
                r: Divider(2),
                q: Divider(2),
            },
            mco: Mco {
                mco1: MCO1::Hsi,
                mco1pre: MCOPRE::Div1,
                mco2: MCO2::Sysclk,
                mco2pre: MCOPRE::Div1,
            },
        }
    }
}

// The input of the PLLs: HSE if given, else HSI, 16 MHz. By its cases, as in clocks and numbers, which answer each something else.
#[tactic(auto, unfolding(crate::specs::Config::input_of))]
pub fn input_of(hse: Option<HSEClock>) -> Hertz
    ensures { result.0 ≡ input_of hse }
{
    match hse {
        None => Hertz(16000000),
        Some(HSEClock::Oscillator(f) | HSEClock::Bypass(f)) => f,
    }
}
