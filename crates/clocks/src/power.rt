// What a SYSCLK asks of flash and power: wait states, voltage scale, over-drive.
ghost use Rattle.std.specs.Prelude.{◌≡◌};
ghost use Rattle.clocks.specs.Derive.{wait_states_of, scale_of, overdrive_of};

use kinds::Hertz;

#[tactic(auto, unfolding(crate::specs::Derive::wait_states_of))]
pub(crate) fn flash_waitstates(s: Hertz) -> u8
    ensures { result ≡ wait_states_of s.0 }
{
    if s.0 <= 30000000 {
        0
    } else if s.0 <= 60000000 {
        1
    } else if s.0 <= 90000000 {
        2
    } else if s.0 <= 120000000 {
        3
    } else if s.0 <= 150000000 {
        4
    } else if s.0 <= 180000000 {
        5
    } else if s.0 <= 210000000 {
        6
    } else {
        7
    }
}

#[tactic(auto, unfolding(crate::specs::Derive::scale_of))]
pub(crate) fn vos_scale(s: Hertz) -> u8
    ensures { result ≡ scale_of s.0 }
{
    if s.0 <= 144000000 {
        3
    } else if s.0 <= 168000000 {
        2
    } else {
        1
    }
}

pub(crate) fn overdrive(s: Hertz) -> bool
    ensures { result ≡ overdrive_of s.0 }
{
    180000000 < s.0
}
