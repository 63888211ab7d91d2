// The sources that the answer hands back: HSE as given, LSE 32,768 and LSI 32,000 where asked.
ghost use Rattle.std.specs.Prelude.{◌≡◌};
ghost use Rattle.clocks.specs.Derive.{hse_given, lse_given, lsi_given};

use kinds::{HSEClock, Hertz, LSEClockMode};

// HSE by its cases, as its definition has it.
pub(crate) fn hse(clock: Option<HSEClock>) -> Option<Hertz>
    ensures { result ≡ hse_given clock }
{
    match clock {
        None => None,
        Some(HSEClock::Oscillator(f) | HSEClock::Bypass(f)) => Some(f),
    }
}

pub(crate) fn lse(clock: Option<LSEClockMode>) -> Option<Hertz>
    ensures { result ≡ lse_given clock }
{
    clock.map(|_| Hertz(32768))
}

pub(crate) fn lsi(on: bool) -> Option<Hertz>
    ensures { result ≡ lsi_given on }
{
    on.then_some(Hertz(32000))
}
