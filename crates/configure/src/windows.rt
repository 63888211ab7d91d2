// What is wanted of the main PLL: SYSCLK, and the windows for its P and Q outputs.
ghost use Rattle.std.specs.Prelude.{◌≡◌};
ghost use Rattle.configure.specs.Configure.{wanted_in, p_window_in, q_window_in, fits_in};

use kinds::{Hertz, PLL48CLK};
use pll::{Checked, Window};

#[tactic(auto, unfolding(crate::specs::Configure::wanted_in, crate::specs::Configure::base_in))]
fn wanted(checked: Checked) -> Hertz
    ensures { result.0 ≡ wanted_in checked.cfgr }
{
    checked.cfgr.requests.sysclk.unwrap_or(checked.base())
}

#[tactic(auto, using(crate::proofs::Configuring::wanted_fits), unfolding(crate::specs::Configure::p_window_in, crate::specs::Configure::p_window_of, crate::specs::Configure::base_in))]
pub(crate) fn p_window(checked: Checked) -> Option<Window>
    ensures { result ≡ p_window_in checked.cfgr }
{
    let wanted = wanted(checked);
    if wanted == checked.base() {
        None
    } else {
        Some(Window {
            lo: Hertz(wanted.0 - 1),
            hi: Hertz(wanted.0 + 1),
        })
    }
}

#[tactic(auto, unfolding(crate::specs::Configure::q_window_in))]
pub(crate) fn q_window(checked: Checked) -> Option<Window>
    ensures { result ≡ q_window_in checked.cfgr }
{
    match checked.cfgr.pll.pll48clk {
        Some(PLL48CLK::Pllq) => Some(Window {
            lo: Hertz(pll::Q_LOW),
            hi: Hertz(pll::Q_HIGH),
        }),
        Some(PLL48CLK::Pllsai) | None => None,
    }
}

// Whether the present settings derive what is wanted.
#[tactic(auto, unfolding(crate::specs::Configure::fits_in))]
pub(crate) fn fits(checked: Checked) -> bool
    ensures { result ≡ fits_in checked.cfgr }
{
    checked.p_output() == wanted(checked).0 as u64
}
