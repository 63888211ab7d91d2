// The rules of the layout, looked at in the order of their offsets: the first that is breached is the fault.
ghost use Rattle.std.specs.Prelude.{◌≡◌, ◌+◌, ◌<◌, ◌≤◌, Ok};
ghost use Rattle.record.specs.Layout as spec;
ghost use Rattle.record.specs.Places as places;

use super::numbers::Record;
use super::{Fault, flags, offsets};

// A rule that isn't kept is named by its fault.
fn note(kept: bool, fault: Fault) -> Result<(), Fault>
    ensures { result ≡ spec.noted (Ok tt) kept fault }
{
    if kept { Ok(()) } else { Err(fault) }
}

impl Record<'_> {
    // Bits 14, 15 of the flags are zero.
    #[tactic(auto, unfolding(crate::specs::Layout::looked))]
    fn reserved_bits(&self) -> Result<(), Fault>
        ensures { result ≡ spec.looked self.now.bytes.now (Ok tt) spec.reserved_bits }
    {
        note(
            self.u16_at(offsets::FLAGS) < flags::BIT_14,
            Fault::Reserved(offsets::FLAGS),
        )
    }

    // A bypass or PLLSAI-choice bit needs its parent.
    #[tactic(auto, unfolding(crate::specs::Layout::looked))]
    fn child(&self, bit: u16, parent: u16) -> Result<(), Fault>
        requires { (0 < bit) × (0 < parent) }
        ensures { result ≡ spec.looked self.now.bytes.now (Ok tt) (spec.child bit parent) }
    {
        note(
            !self.flag(bit) | self.flag(parent),
            Fault::Unasked(offsets::FLAGS),
        )
    }

    // The byte at the offset is a code of 0 to the last.
    #[tactic(auto, unfolding(crate::specs::Layout::looked))]
    fn code(&self, at: usize, last: u8) -> Result<(), Fault>
        requires { at < places.RECORD }
        ensures { result ≡ spec.looked self.now.bytes.now (Ok tt) (spec.code at last) }
    {
        note(self.byte(at) <= last, Fault::Code(at))
    }

    // The byte at the offset is zero.
    #[tactic(auto, unfolding(crate::specs::Layout::looked))]
    fn blank(&self, at: usize) -> Result<(), Fault>
        requires { at < places.RECORD }
        ensures { result ≡ spec.looked self.now.bytes.now (Ok tt) (spec.blank at) }
    {
        note(self.byte(at) == 0, Fault::Reserved(at))
    }

    // The u32 at the offset is zero if the flag of this value is off.
    #[tactic(auto, unfolding(crate::specs::Layout::looked))]
    fn number(&self, value: u16, at: usize) -> Result<(), Fault>
        requires { (0 < value) × (at + 4 ≤ places.RECORD) }
        ensures { result ≡ spec.looked self.now.bytes.now (Ok tt) (spec.number value at) }
    {
        note(
            self.flag(value) | (self.u32_at(at) == 0),
            Fault::Unasked(at),
        )
    }

    // The bytes from the first offset to before the end are zero.
    #[tactic(auto, using(crate::proofs::Blanks::begun, crate::proofs::Blanks::ended, crate::proofs::First::stays))]
    fn blanks(&self, from: usize, end: usize) -> Result<(), Fault>
        requires { (from ≤ end) × (end ≤ places.RECORD) }
        ensures { result ≡ spec.breach_from self.now.bytes.now (Ok tt) (spec.blanks from end) }
    {
        for at in from..end {
            self.blank(at)?;
        }
        Ok(())
    }

    #[tactic(auto, using(crate::proofs::First::stands))]
    fn check_flags(&self) -> Result<(), Fault>
        ensures { result ≡ spec.breach_from self.now.bytes.now (Ok tt) spec.flag_rules }
    {
        self.reserved_bits()?;
        self.child(flags::HSE_BYPASS, flags::HSE)?;
        self.child(flags::LSE_BYPASS, flags::LSE)?;
        self.child(flags::CHOICE48_PLLSAI, flags::CHOICE48)
    }

    #[tactic(auto, using(crate::proofs::First::stands))]
    fn check_bytes(&self) -> Result<(), Fault>
        ensures { result ≡ spec.breach_from self.now.bytes.now (Ok tt) spec.byte_rules }
    {
        self.code(offsets::P, 3)?;
        self.code(offsets::PLLSAI_P, 3)?;
        self.code(offsets::MCO1, 3)?;
        self.code(offsets::MCO1PRE, 4)?;
        self.code(offsets::MCO2, 3)?;
        self.code(offsets::MCO2PRE, 4)?;
        self.blank(offsets::RESERVED)
    }

    #[tactic(auto, using(crate::proofs::First::stands))]
    fn check_numbers(&self) -> Result<(), Fault>
        ensures { result ≡ spec.breach_from self.now.bytes.now (Ok tt) spec.number_rules }
    {
        self.number(flags::HSE, offsets::HSE)?;
        self.number(flags::HCLK, offsets::HCLK)?;
        self.number(flags::SYSCLK, offsets::SYSCLK)?;
        self.number(flags::PCLK1, offsets::PCLK1)?;
        self.number(flags::PCLK2, offsets::PCLK2)
    }

    // The whole layout.
    #[tactic(auto, using(crate::proofs::First::stands, crate::proofs::First::stays), unfolding(crate::specs::Layout::breach_of))]
    pub(crate) fn check(&self) -> Result<(), Fault>
        ensures { result ≡ spec.breach_of self.now.bytes.now }
    {
        self.check_flags()?;
        self.check_bytes()?;
        self.check_numbers()?;
        self.blanks(offsets::TAIL, offsets::RECORD)
    }
}
