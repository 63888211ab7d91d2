// A setter call as a value, so that a chain of calls is a list; and by number.
#![tactic(auto)]

mod named;

ghost use Rattle.std.specs.Prelude.{◌≡◌};
ghost use Rattle.calls.specs.Calls.{call_setting};

use kinds::{
    CFGR, Divider, Factor, HSEClockMode, Hertz, LSEClockMode, MCO1, MCO2, MCOPRE, PLL48CLK, PLLP,
    Unset,
};
pub use named::call_of;

#[derive(Clone, Copy, PartialEq, Eq)]
pub enum Setter {
    Hse(Hertz, HSEClockMode),
    Hclk(Hertz),
    Sysclk(Hertz),
    Pclk1(Hertz),
    Pclk2(Hertz),
    Lse(LSEClockMode),
    Lsi,
    UsePll,
    UsePll48clk(PLL48CLK),
    Pllm(Divider),
    Plln(Factor),
    Pllp(PLLP),
    Pllq(Divider),
    UsePllsai,
    Pllsain(Factor),
    Pllsaip(PLLP),
    Pllsaiq(Divider),
    UsePlli2s,
    Plli2sn(Factor),
    Plli2sq(Divider),
    Plli2sr(Divider),
    Mco1(MCO1),
    Mco1pre(MCOPRE),
    Mco2(MCO2),
    Mco2pre(MCOPRE),
    SetDefaults,
}

// The setter that the value names, called.
#[tactic(auto, unfolding(crate::specs::Calls::call_setting))]
pub fn call(cfgr: CFGR, setter: Setter) -> Result<CFGR, Unset>
    ensures { result ≡ call_setting cfgr setter }
{
    match setter {
        Setter::Hse(x, y) => cfgr.hse(x, y),
        Setter::Hclk(x) => cfgr.hclk(x),
        Setter::Sysclk(x) => cfgr.sysclk(x),
        Setter::Pclk1(x) => cfgr.pclk1(x),
        Setter::Pclk2(x) => cfgr.pclk2(x),
        Setter::Lse(x) => Ok(cfgr.lse(x)),
        Setter::Lsi => Ok(cfgr.lsi()),
        Setter::UsePll => Ok(cfgr.use_pll()),
        Setter::UsePll48clk(x) => Ok(cfgr.use_pll48clk(x)),
        Setter::Pllm(x) => cfgr.pllm(x),
        Setter::Plln(x) => cfgr.plln(x),
        Setter::Pllp(x) => Ok(cfgr.pllp(x)),
        Setter::Pllq(x) => cfgr.pllq(x),
        Setter::UsePllsai => Ok(cfgr.use_pllsai()),
        Setter::Pllsain(x) => cfgr.pllsain(x),
        Setter::Pllsaip(x) => Ok(cfgr.pllsaip(x)),
        Setter::Pllsaiq(x) => cfgr.pllsaiq(x),
        Setter::UsePlli2s => Ok(cfgr.use_plli2s()),
        Setter::Plli2sn(x) => cfgr.plli2sn(x),
        Setter::Plli2sq(x) => cfgr.plli2sq(x),
        Setter::Plli2sr(x) => cfgr.plli2sr(x),
        Setter::Mco1(x) => Ok(cfgr.mco1(x)),
        Setter::Mco1pre(x) => Ok(cfgr.mco1pre(x)),
        Setter::Mco2(x) => Ok(cfgr.mco2(x)),
        Setter::Mco2pre(x) => Ok(cfgr.mco2pre(x)),
        Setter::SetDefaults => cfgr.set_defaults(),
    }
}
