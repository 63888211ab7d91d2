// Document 01, "Request record": 64 bytes, little-endian, read as a configuration or found malformed.
#![tactic(auto)]

mod config;
mod faults;
mod flags;
mod numbers;
mod offsets;

ghost use Rattle.std.specs.Prelude.{◌≡◌};
ghost use Rattle.record.specs.Reading.{read_of};

use kinds::CFGR;
use numbers::Record;
pub use offsets::RECORD;

// Why a record is malformed and at which offset: another length, a reserved bit or byte that isn't zero,
// an unknown code, a value or child bit whose flag is off. Document 01 has one number for all of them.
#[derive(Clone, Copy, PartialEq, Eq)]
pub enum Fault {
    Length,
    Reserved(usize),
    Code(usize),
    Unasked(usize),
}

// What any bytes say: values that no setter takes are read as they stand.
#[tactic(auto, unfolding(crate::specs::Reading::read_of))]
pub fn read_record(bytes: &[u8]) -> Result<CFGR, Fault>
    ensures { result ≡ read_of bytes.now }
{
    let bytes = bytes.as_array().ok_or(Fault::Length)?;
    let record = Record { bytes };
    record.check()?;
    Ok(record.cfgr())
}
