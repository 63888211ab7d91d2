// A record: 64 bytes, and the little-endian numbers and flags in them.
ghost use Rattle.std.specs.Prelude.{◌≡◌, ◌+◌, ◌<◌, ◌≤◌, get_or};
ghost use Rattle.record.specs.Numbers.{u16_at, u32_at, flag_at};
ghost use Rattle.record.specs.Places as places;

use super::offsets::{self, RECORD};

// The length stands in the type, so no method asks for it. That an offset lies within it is one clause for each width: a type of offset
// for each would be made anew at every call.
#[derive(Clone, Copy)]
pub(crate) struct Record<'a> {
    pub(crate) bytes: &'a [u8; RECORD],
}

impl Record<'_> {
    pub(crate) fn byte(&self, at: usize) -> u8
        requires { at < places.RECORD }
        ensures { result ≡ get_or self.now.bytes.now at 0 }
    {
        self.bytes[at]
    }

    #[tactic(auto, unfolding(crate::specs::Numbers::u16_at))]
    pub(crate) fn u16_at(&self, at: usize) -> u16
        requires { at + 2 ≤ places.RECORD }
        ensures { result ≡ u16_at self.now.bytes.now at }
    {
        u16::from_le_bytes([self.byte(at), self.byte(at + 1)])
    }

    #[tactic(auto, unfolding(crate::specs::Numbers::u16_at, crate::specs::Numbers::u32_at))]
    pub(crate) fn u32_at(&self, at: usize) -> u32
        requires { at + 4 ≤ places.RECORD }
        ensures { result ≡ u32_at self.now.bytes.now at }
    {
        u32::from_le_bytes([
            self.byte(at),
            self.byte(at + 1),
            self.byte(at + 2),
            self.byte(at + 3),
        ])
    }

    // Whether the flag whose bit has this value is on. By division: `&` would ask callers for a power of two.
    #[tactic(auto, unfolding(crate::specs::Numbers::flag_at))]
    pub(crate) fn flag(&self, value: u16) -> bool
        requires { 0 < value }
        ensures { result ≡ flag_at self.now.bytes.now value }
    {
        self.u16_at(offsets::FLAGS) / value % 2 == 1
    }
}
