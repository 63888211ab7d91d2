// Document 01, "Numbers for every refusal": the limits behind 1 to 6, and the check of a whole configuration.
ghost use Rattle.std.specs.Prelude.{◌≡◌};
ghost use Rattle.kinds.specs.Limits as spec;
ghost use Rattle.kinds.specs.Refusals.{number_of, unless};

use super::{CFGR, Divider, Factor, HSEClock, Hertz, I2s, Pll, Refusal, Requests, Sai};

// The range test of every limit of a configuration, of those of 9 to 11, and of a poll limit: ends and refusal, a line of document 01's.
#[tactic(auto, using(crate::proofs::Numbered::below, crate::proofs::Numbered::above, crate::proofs::Numbered::inside))]
pub fn within(lo: u64, hi: u64, refusal: Refusal, x: u64) -> Result<(), Refusal>
    ensures { result ≡ unless (spec.outside_of lo hi (number_of refusal) x) tt }
{
    if x < lo {
        Err(refusal)
    } else if hi < x {
        Err(refusal)
    } else {
        Ok(())
    }
}

#[tactic(auto, unfolding(crate::specs::Refusals::unless))]
pub(crate) fn check_hse(hse: Option<HSEClock>) -> Result<(), Refusal>
    ensures { result ≡ unless (spec.hse_refusal hse) tt }
{
    match hse {
        None => Ok(()),
        Some(HSEClock::Oscillator(f)) => within(4000000, 26000000, Refusal::Hse, f.0 as u64),
        Some(HSEClock::Bypass(f)) => within(1000000, 50000000, Refusal::Hse, f.0 as u64),
    }
}

// A request outside lo to hi is refused.
#[tactic(auto, unfolding(crate::specs::Refusals::unless))]
fn check_asked(lo: u64, hi: u64, refusal: Refusal, asked: Option<Hertz>) -> Result<(), Refusal>
    ensures { result ≡ unless (spec.asked_refusal (spec.limited lo hi (number_of refusal)) asked) tt }
{
    match asked {
        None => Ok(()),
        Some(f) => within(lo, hi, refusal, f.0 as u64),
    }
}

// M of 2 to 63.
pub(crate) fn check_m(m: Divider) -> Result<(), Refusal>
    ensures { result ≡ unless (spec.m_refusal m) tt }
{
    within(2, 63, Refusal::Settings, m.0 as u64)
}

// Any N of 50 to 432.
pub(crate) fn check_n(n: Factor) -> Result<(), Refusal>
    ensures { result ≡ unless (spec.n_refusal n) tt }
{
    within(50, 432, Refusal::Settings, n.0 as u64)
}

// Any Q of 2 to 15.
pub(crate) fn check_q(q: Divider) -> Result<(), Refusal>
    ensures { result ≡ unless (spec.q_refusal q) tt }
{
    within(2, 15, Refusal::Settings, q.0 as u64)
}

// PLLI2S R of 2 to 7.
pub(crate) fn check_r(r: Divider) -> Result<(), Refusal>
    ensures { result ≡ unless (spec.r_refusal r) tt }
{
    within(2, 7, Refusal::Settings, r.0 as u64)
}

impl Requests {
    #[tactic(auto, unfolding(crate::specs::Refusals::unless, crate::specs::Limits::first_refusal))]
    fn check(self) -> Result<(), Refusal>
        ensures { result ≡ unless (spec.requests_refusal self) tt }
    {
        check_asked(0, 216000000, Refusal::Hclk, self.hclk)?;
        check_asked(12500000, 216000000, Refusal::Sysclk, self.sysclk)?;
        check_asked(12500000, 54000000, Refusal::Pclk1, self.pclk1)?;
        check_asked(12500000, 108000000, Refusal::Pclk2, self.pclk2)
    }
}

impl Pll {
    #[tactic(auto, unfolding(crate::specs::Refusals::unless, crate::specs::Limits::first_refusal))]
    fn check(self) -> Result<(), Refusal>
        ensures { result ≡ unless (spec.pll_refusal self) tt }
    {
        check_m(self.m)?;
        check_n(self.n)?;
        check_q(self.q)
    }
}

impl Sai {
    #[tactic(auto, unfolding(crate::specs::Refusals::unless, crate::specs::Limits::first_refusal))]
    fn check(self) -> Result<(), Refusal>
        ensures { result ≡ unless (spec.sai_refusal self) tt }
    {
        check_n(self.n)?;
        check_q(self.q)
    }
}

impl I2s {
    #[tactic(auto, unfolding(crate::specs::Refusals::unless, crate::specs::Limits::first_refusal))]
    fn check(self) -> Result<(), Refusal>
        ensures { result ≡ unless (spec.i2s_refusal self) tt }
    {
        check_n(self.n)?;
        check_r(self.r)?;
        check_q(self.q)
    }
}

impl CFGR {
    // Refused with the first in turn of 1 to 6 that is given.
    #[tactic(auto, unfolding(crate::specs::Limits::check_of, crate::specs::Refusals::unless, crate::specs::Limits::first_refusal))]
    pub fn check(self) -> Result<(), Refusal>
        ensures { result ≡ unless (spec.check_of self) tt }
    {
        check_hse(self.sources.hse)?;
        self.requests.check()?;
        self.pll.check()?;
        self.sai.check()?;
        self.i2s.check()
    }
}
