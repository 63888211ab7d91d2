// Document 01, "Fixed point" and "Search": the PLL's outputs, and the search for its settings.
#![tactic(auto)]

mod checked;
mod fixed;
mod pass;
mod search;
mod skip;
mod windows;

ghost use Rattle.std.specs.Prelude.{◌≡◌, ◌&&◌};
ghost use Rattle.pll.specs.Fixed.{inside, output_of};
ghost use Rattle.pll.specs.Walk.{search_of};

pub use checked::Checked;
use fixed::{out, unit, vco};
use kinds::{Divider, Factor, Hertz, Refusal};
use search::search;

// The ends of the Q window, which a 48 MHz clock lies in.
pub const Q_LOW: u32 = 47880000;

pub const Q_HIGH: u32 = 48120000;

// A window that an output is wanted in, its ends included.
#[derive(Clone, Copy, PartialEq, Eq)]
pub struct Window {
    pub lo: Hertz,
    pub hi: Hertz,
}

// Which of the two outputs a window is for: looked at in `highest` alone.
#[derive(Clone, Copy)]
enum Side {
    P,
    Q,
}

// What a look at a pair comes to.
#[derive(Clone, Copy)]
enum Look {
    Refuse,
    NextM,
    NextN,
    Good(Option<Divider>, Option<Divider>),
}

// The answer of the search, with the passes that its walk makes: a P or Q where a window asked for one.
#[derive(Clone, Copy, PartialEq, Eq)]
pub struct Pair {
    pub m: Divider,
    pub n: Factor,
    pub p: Option<Divider>,
    pub q: Option<Divider>,
    pub passes: u32,
}

// Why there is none.
#[derive(Clone, Copy, PartialEq, Eq)]
pub enum Miss {
    BadInput,
    Nothing { passes: u32 },
}

// The search takes inputs of 1 to 50 MHz.
fn is_input(f: Hertz) -> bool
    ensures { result ≡ inside 1000000 50000000 f.0 }
{
    (1000000..=50000000).contains(&f.0)
}

fn are_settings(m: Divider, n: Factor, d: Divider) -> bool
    ensures { result ≡ inside 2 63 m.0 && inside 50 432 n.0 && inside 2 15 d.0 }
{
    (2..=63).contains(&m.0) && (50..=432).contains(&n.0) && (2..=15).contains(&d.0)
}

// The fixed-point output of settings as they stand.
#[tactic(auto, unfolding(crate::specs::Fixed::output_of))]
pub fn output(f: Hertz, m: Divider, n: Factor, d: Divider) -> Result<u64, Refusal>
    ensures { result ≡ output_of f.0 m.0 n.0 d.0 }
{
    if !is_input(f) {
        return Err(Refusal::Hse);
    }
    if !are_settings(m, n, d) {
        return Err(Refusal::Settings);
    }
    Ok(out(vco(unit(f, m), n), d))
}

// The search's entry: an input out of range and no window at all end it before the first pass. The two windows come one by one, as the
// Rust takes them.
#[tactic(auto, unfolding(crate::specs::Walk::search_of, crate::specs::Walk::entered))]
pub fn calculate_mnpq(f: Hertz, p: Option<Window>, q: Option<Window>) -> Result<Pair, Miss>
    ensures { result ≡ search_of f.0 p q }
{
    if !is_input(f) {
        return Err(Miss::BadInput);
    }
    // Two calls in place of one: each is compiled for what is known of p there, and so is faster.
    match (p, q) {
        (None, None) => Err(Miss::Nothing { passes: 0 }),
        (None, Some(_)) => search(f, p, q),
        (Some(_), _) => search(f, p, q),
    }
}
