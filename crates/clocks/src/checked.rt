// A configuration that the check passes: its SYSCLK and 48 MHz clock, its buses, its answer.
ghost use Rattle.std.specs.Prelude.{◌≡◌};
ghost use Rattle.kinds.specs.Config.{input_of};
ghost use Rattle.pll.specs.Fixed.{inside};
ghost use Rattle.pll.specs.Outputs.{q_low, q_high};
ghost use Rattle.clocks.specs.Derive.{sysclk_of, valid_of, settled_of};
ghost use Rattle.clocks.specs.Inner.{granted_of};

use super::buses::{ahb, apb, cap};
use super::{Derived, Granted, SystemClock};
use kinds::{Hertz, PLL48CLK, Refusal, Requests};
use pll::Checked;

// Whether an output, which can pass 32 bits, lies in the Q window.
fn inside_48(x: u64) -> bool
    ensures { result ≡ inside q_low q_high x }
{
    (u64::from(pll::Q_LOW)..=u64::from(pll::Q_HIGH)).contains(&x)
}

// 16 × b without `use_pll`, else the P output.
#[tactic(auto, unfolding(crate::specs::Derive::sysclk_of))]
fn sysclk(checked: Checked) -> u64
    ensures { result ≡ sysclk_of checked.cfgr }
{
    if checked.cfgr.pll.use_pll {
        checked.p_output()
    } else {
        u64::from(checked.base().0)
    }
}

#[tactic(auto, unfolding(crate::specs::Derive::valid_of))]
fn pll48clk_valid(checked: Checked) -> bool
    ensures { result ≡ valid_of (input_of checked.cfgr.sources.hse) checked.cfgr.pll checked.cfgr.sai }
{
    match checked.cfgr.pll.pll48clk {
        None => false,
        Some(PLL48CLK::Pllq) => inside_48(checked.q_output()),
        Some(PLL48CLK::Pllsai) => checked.cfgr.sai.use_pllsai && inside_48(checked.sai_output()),
    }
}

// What is granted of a SYSCLK.
#[tactic(auto, unfolding(crate::specs::Inner::granted_of))]
fn granted(checked: Checked, sysclk: SystemClock) -> Granted
    ensures { result ≡ granted_of sysclk.hertz.0 checked.cfgr.requests }
{
    let Requests {
        hclk,
        pclk1,
        pclk2,
        ..
    } = checked.cfgr.requests;
    let s = sysclk.hertz;
    let ahb = ahb(sysclk, hclk);
    Granted {
        sysclk: s,
        ahb,
        apb1: apb(cap(s, Hertz(45000000), Hertz(54000000)), ahb.hclk, pclk1),
        apb2: apb(cap(s, Hertz(90000000), Hertz(108000000)), ahb.hclk, pclk2),
    }
}

// Refused for a SYSCLK above 216 MHz.
#[tactic(auto, unfolding(crate::specs::Derive::settled_of, crate::specs::Derive::clocks_of, crate::specs::Derive::config_of, crate::specs::Derive::ahb_of, crate::specs::Derive::apb1_of, crate::specs::Derive::apb2_of, crate::specs::Inner::granted_of))]
pub(crate) fn settled(checked: Checked) -> Result<Derived, Refusal>
    ensures { result ≡ settled_of checked.cfgr }
{
    let sysclk = sysclk(checked);
    if 216000000 < sysclk {
        return Err(Refusal::DerivedSysclk);
    }
    let hertz = Hertz(sysclk as u32);
    let granted = granted(checked, SystemClock { hertz });
    Ok(Derived {
        clocks: granted.frozen(checked.cfgr.sources, pll48clk_valid(checked)),
        config: granted.codes(),
    })
}
