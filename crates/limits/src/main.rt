// Runs the list of all limits through the setters and the search: both ends of each, the numbers just past them, and the greatest.
#![tactic(auto)]

ghost use Rattle.std.specs.Prelude.{◌≤◌};

use calls::{Setter, call};
use kinds::{CFGR, Divider, Factor, HSEClockMode, Hertz, Refusal};
use pll::{Miss, Window};

// What a setter refuses with.
fn refusal(setter: Setter) -> Option<Refusal> {
    call(CFGR::constrain(), setter)
        .err()
        .map(|unset| unset.refusal)
}

// Whether the search refuses its input: whether it finds a pair is not asked here.
fn input_refusal(x: u32) -> Option<Refusal> {
    let any = Window {
        lo: Hertz(0),
        hi: Hertz(u32::MAX),
    };
    match pll::calculate_mnpq(Hertz(x), Some(any), None) {
        Err(Miss::BadInput) => Some(Refusal::Hse),
        _ => None,
    }
}

// 1 where a value gets another answer than the one wanted, else 0.
fn wrong<F: Fn(u32) -> Option<Refusal>>(refusal: &F, x: u32, wanted: Option<Refusal>) -> u64
    requires { F.IsAlwaysCallable refusal.now }
    ensures { result ≤ 1 }
{
    u64::from(refusal(x) != wanted)
}

fn wrong_below<F: Fn(u32) -> Option<Refusal>>(refusal: &F, lo: u32, k: Refusal) -> u64
    requires { F.IsAlwaysCallable refusal.now }
    ensures { result ≤ 2 }
{
    match lo.checked_sub(1) {
        Some(below) => wrong(refusal, below, Some(k)) + wrong(refusal, lo, None),
        None => wrong(refusal, lo, None),
    }
}

fn wrong_above<F: Fn(u32) -> Option<Refusal>>(refusal: &F, hi: u32, k: Refusal) -> u64
    requires { F.IsAlwaysCallable refusal.now }
    ensures { result ≤ 3 }
{
    wrong(refusal, hi, None)
        + wrong(refusal, hi.saturating_add(1), Some(k))
        + wrong(refusal, u32::MAX, Some(k))
}

// How many of the tries at the ends of a limit go wrong: lo to hi is taken, any other refused with k.
fn limit<F: Fn(u32) -> Option<Refusal>>(refusal: F, lo: u32, hi: u32, k: Refusal) -> u64
    requires { F.IsAlwaysCallable refusal }
    ensures { result ≤ 5 }
{
    wrong_below(&refusal, lo, k) + wrong_above(&refusal, hi, k)
}

// The limits that 1 to 5 refuse, and the search's input.
fn frequencies() -> u64
    ensures { result ≤ 35 }
{
    let crystal = |x| refusal(Setter::Hse(Hertz(x), HSEClockMode::Oscillator));
    let bypass = |x| refusal(Setter::Hse(Hertz(x), HSEClockMode::Bypass));
    let hclk = |x| refusal(Setter::Hclk(Hertz(x)));
    let sysclk = |x| refusal(Setter::Sysclk(Hertz(x)));
    let pclk1 = |x| refusal(Setter::Pclk1(Hertz(x)));
    let pclk2 = |x| refusal(Setter::Pclk2(Hertz(x)));
    limit(crystal, 4000000, 26000000, Refusal::Hse)
        + limit(bypass, 1000000, 50000000, Refusal::Hse)
        + limit(hclk, 0, 216000000, Refusal::Hclk)
        + limit(sysclk, 12500000, 216000000, Refusal::Sysclk)
        + limit(pclk1, 12500000, 54000000, Refusal::Pclk1)
        + limit(pclk2, 12500000, 108000000, Refusal::Pclk2)
        + limit(input_refusal, 1000000, 50000000, Refusal::Hse)
}

// Those that 6 refuses.
fn settings() -> u64
    ensures { result ≤ 40 }
{
    let six = Refusal::Settings;
    limit(|x| refusal(Setter::Pllm(Divider(x))), 2, 63, six)
        + limit(|x| refusal(Setter::Plln(Factor(x))), 50, 432, six)
        + limit(|x| refusal(Setter::Pllq(Divider(x))), 2, 15, six)
        + limit(|x| refusal(Setter::Pllsain(Factor(x))), 50, 432, six)
        + limit(|x| refusal(Setter::Pllsaiq(Divider(x))), 2, 15, six)
        + limit(|x| refusal(Setter::Plli2sn(Factor(x))), 50, 432, six)
        + limit(|x| refusal(Setter::Plli2sr(Divider(x))), 2, 7, six)
        + limit(|x| refusal(Setter::Plli2sq(Divider(x))), 2, 15, six)
}

fn main(rt: HostRuntime) {
    let wrong = frequencies() + settings();
    let _ = println!(rt; "{wrong} of 74 tries at a limit's end went wrong");
}
