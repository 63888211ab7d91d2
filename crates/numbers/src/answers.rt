// Windows from numbers, and an answer of the search as numbers.
ghost use Rattle.std.specs.Prelude.{◌≡◌};
ghost use Rattle.pll.specs.Numbers.{number_of};
ghost use Rattle.numbers.specs.Answers as spec;

use super::SEARCH;
use kinds::{Divider, Hertz, Refusal};
use pll::{Miss, Pair, Window};

// A window by a flag, as C gives it: looked at only where the flag is set.
pub fn window(present: bool, low: u32, high: u32) -> Option<Window>
    ensures { result ≡ spec.window_of present low high }
{
    present.then_some(Window {
        lo: Hertz(low),
        hi: Hertz(high),
    })
}

fn divider(s: Option<Divider>) -> u32
    ensures { result ≡ spec.divider_of s }
{
    s.map_or(0, |d| d.0)
}

// 0 or the refusal's number, as C gets it.
pub fn number_of(found: Result<Pair, Miss>) -> u32
    ensures { result ≡ number_of found }
{
    match found {
        Ok(_) => 0,
        Err(Miss::BadInput) => u32::from(Refusal::Hse),
        Err(Miss::Nothing { .. }) => u32::from(Refusal::NoPair),
    }
}

// Passes, M, N, P, Q: zeros where there is none.
pub fn found_numbers(found: Result<Pair, Miss>) -> [u32; SEARCH]
    ensures { result ≡ spec.found_numbers found }
{
    match found {
        Ok(Pair { m, n, p, q, passes }) => [passes, m.0, n.0, divider(p), divider(q)],
        Err(Miss::BadInput) => [0, 0, 0, 0, 0],
        Err(Miss::Nothing { passes }) => [passes, 0, 0, 0, 0],
    }
}
