// Document 01, "Start-up": the register file, and what a plan stores in it. The order of its stores and waits is in specs/.
#![tactic(auto)]

pub mod registers;
mod wait;

pub use registers::PLACES;
pub use wait::Awaited;
