// The Rust's setters, each under its name. One that may refuse hands back the configuration as it came, beside its refusal.
ghost use Rattle.std.specs.Prelude.{◌≡◌, Ok};
ghost use Rattle.kinds.specs.Refusals.{unless};
ghost use Rattle.kinds.specs.Setters as spec;

use super::limits::{check_hse, check_m, check_n, check_q, check_r, within};
use super::{
    CFGR, Divider, Factor, HSEClock, HSEClockMode, Hertz, LSEClockMode, MCO1, MCO2, MCOPRE,
    PLL48CLK, PLLP, Refusal, Unset,
};

impl CFGR {
    // A limit that isn't kept refuses, with the configuration as it came.
    fn held_to(self, limit: Result<(), Refusal>) -> Result<(), Unset>
        ensures { result ≡ spec.held_to self limit }
    {
        match limit {
            Ok(()) => Ok(()),
            Err(refusal) => Err(Unset {
                refusal,
                cfgr: self,
            }),
        }
    }

    // The Rust's `hse(HSEClock::new(freq, mode))`: 4 to 26 MHz with a crystal, 1 to 50 MHz by bypass, else 1.
    #[tactic(auto, unfolding(crate::specs::Setters::setting_of, crate::specs::Refusals::unless))]
    pub fn hse(mut self, freq: Hertz, mode: HSEClockMode) -> Result<CFGR, Unset>
        ensures { result ≡ spec.set_hse self freq mode }
    {
        let hse = Some(HSEClock::new(freq, mode));
        self.held_to(check_hse(hse))?;
        self.sources.hse = hse;
        Ok(self)
    }

    // HCLK of at most 216 MHz, else 2.
    #[tactic(auto, unfolding(crate::specs::Setters::setting_of, crate::specs::Refusals::unless))]
    pub fn hclk(mut self, freq: Hertz) -> Result<CFGR, Unset>
        ensures { result ≡ spec.set_hclk self freq }
    {
        self.held_to(within(0, 216000000, Refusal::Hclk, freq.0 as u64))?;
        self.requests.hclk = Some(freq);
        Ok(self)
    }

    // SYSCLK of 12.5 to 216 MHz, else 3.
    #[tactic(auto, unfolding(crate::specs::Setters::setting_of, crate::specs::Refusals::unless))]
    pub fn sysclk(mut self, freq: Hertz) -> Result<CFGR, Unset>
        ensures { result ≡ spec.set_sysclk self freq }
    {
        self.held_to(within(12500000, 216000000, Refusal::Sysclk, freq.0 as u64))?;
        self.requests.sysclk = Some(freq);
        Ok(self)
    }

    // PCLK1 of 12.5 to 54 MHz, else 4.
    #[tactic(auto, unfolding(crate::specs::Setters::setting_of, crate::specs::Refusals::unless))]
    pub fn pclk1(mut self, freq: Hertz) -> Result<CFGR, Unset>
        ensures { result ≡ spec.set_pclk1 self freq }
    {
        self.held_to(within(12500000, 54000000, Refusal::Pclk1, freq.0 as u64))?;
        self.requests.pclk1 = Some(freq);
        Ok(self)
    }

    // PCLK2 of 12.5 to 108 MHz, else 5.
    #[tactic(auto, unfolding(crate::specs::Setters::setting_of, crate::specs::Refusals::unless))]
    pub fn pclk2(mut self, freq: Hertz) -> Result<CFGR, Unset>
        ensures { result ≡ spec.set_pclk2 self freq }
    {
        self.held_to(within(12500000, 108000000, Refusal::Pclk2, freq.0 as u64))?;
        self.requests.pclk2 = Some(freq);
        Ok(self)
    }

    // The Rust's `lse(LSEClock::new(mode))`.
    pub fn lse(mut self, mode: LSEClockMode) -> CFGR
        ensures { Ok result ≡ spec.set_lse self mode }
    {
        self.sources.lse = Some(mode);
        self
    }

    // LSI, 32 kHz.
    pub fn lsi(mut self) -> CFGR
        ensures { Ok result ≡ spec.set_lsi self }
    {
        self.sources.lsi = true;
        self
    }

    // SYSCLK from the main PLL; planning resets it where no PLL is needed.
    pub fn use_pll(mut self) -> CFGR
        ensures { Ok result ≡ spec.set_use_pll self }
    {
        self.pll.use_pll = true;
        self
    }

    // The source of the 48 MHz clock.
    pub fn use_pll48clk(mut self, clock: PLL48CLK) -> CFGR
        ensures { Ok result ≡ spec.set_pll48clk self clock }
    {
        self.pll.pll48clk = Some(clock);
        self
    }

    // M, 2 to 63, else 6.
    #[tactic(auto, unfolding(crate::specs::Setters::setting_of, crate::specs::Refusals::unless))]
    pub fn pllm(mut self, m: Divider) -> Result<CFGR, Unset>
        ensures { result ≡ spec.set_pllm self m }
    {
        self.held_to(check_m(m))?;
        self.pll.m = m;
        Ok(self)
    }

    // N, 50 to 432, else 6.
    #[tactic(auto, unfolding(crate::specs::Setters::setting_of, crate::specs::Refusals::unless))]
    pub fn plln(mut self, n: Factor) -> Result<CFGR, Unset>
        ensures { result ≡ spec.set_plln self n }
    {
        self.held_to(check_n(n))?;
        self.pll.n = n;
        Ok(self)
    }

    // P.
    pub fn pllp(mut self, p: PLLP) -> CFGR
        ensures { Ok result ≡ spec.set_pllp self p }
    {
        self.pll.p = p;
        self
    }

    // Q, 2 to 15, else 6.
    #[tactic(auto, unfolding(crate::specs::Setters::setting_of, crate::specs::Refusals::unless))]
    pub fn pllq(mut self, q: Divider) -> Result<CFGR, Unset>
        ensures { result ≡ spec.set_pllq self q }
    {
        self.held_to(check_q(q))?;
        self.pll.q = q;
        Ok(self)
    }

    // PLLSAI on.
    pub fn use_pllsai(mut self) -> CFGR
        ensures { Ok result ≡ spec.set_use_pllsai self }
    {
        self.sai.use_pllsai = true;
        self
    }

    // PLLSAI N, 50 to 432, else 6.
    #[tactic(auto, unfolding(crate::specs::Setters::setting_of, crate::specs::Refusals::unless))]
    pub fn pllsain(mut self, n: Factor) -> Result<CFGR, Unset>
        ensures { result ≡ spec.set_pllsain self n }
    {
        self.held_to(check_n(n))?;
        self.sai.n = n;
        Ok(self)
    }

    // PLLSAI P.
    pub fn pllsaip(mut self, p: PLLP) -> CFGR
        ensures { Ok result ≡ spec.set_pllsaip self p }
    {
        self.sai.p = p;
        self
    }

    // PLLSAI Q, 2 to 15, else 6.
    #[tactic(auto, unfolding(crate::specs::Setters::setting_of, crate::specs::Refusals::unless))]
    pub fn pllsaiq(mut self, q: Divider) -> Result<CFGR, Unset>
        ensures { result ≡ spec.set_pllsaiq self q }
    {
        self.held_to(check_q(q))?;
        self.sai.q = q;
        Ok(self)
    }

    // PLLI2S on.
    pub fn use_plli2s(mut self) -> CFGR
        ensures { Ok result ≡ spec.set_use_plli2s self }
    {
        self.i2s.use_plli2s = true;
        self
    }

    // PLLI2S N, 50 to 432, else 6.
    #[tactic(auto, unfolding(crate::specs::Setters::setting_of, crate::specs::Refusals::unless))]
    pub fn plli2sn(mut self, n: Factor) -> Result<CFGR, Unset>
        ensures { result ≡ spec.set_plli2sn self n }
    {
        self.held_to(check_n(n))?;
        self.i2s.n = n;
        Ok(self)
    }

    // PLLI2S Q, 2 to 15, else 6.
    #[tactic(auto, unfolding(crate::specs::Setters::setting_of, crate::specs::Refusals::unless))]
    pub fn plli2sq(mut self, q: Divider) -> Result<CFGR, Unset>
        ensures { result ≡ spec.set_plli2sq self q }
    {
        self.held_to(check_q(q))?;
        self.i2s.q = q;
        Ok(self)
    }

    // PLLI2S R, 2 to 7, else 6.
    #[tactic(auto, unfolding(crate::specs::Setters::setting_of, crate::specs::Refusals::unless))]
    pub fn plli2sr(mut self, d: Divider) -> Result<CFGR, Unset>
        ensures { result ≡ spec.set_plli2sr self d }
    {
        self.held_to(check_r(d))?;
        self.i2s.r = d;
        Ok(self)
    }

    // MCO1: its source.
    pub fn mco1(mut self, source: MCO1) -> CFGR
        ensures { Ok result ≡ spec.set_mco1 self source }
    {
        self.mco.mco1 = source;
        self
    }

    // MCO1: its prescaler.
    pub fn mco1pre(mut self, pre: MCOPRE) -> CFGR
        ensures { Ok result ≡ spec.set_mco1pre self pre }
    {
        self.mco.mco1pre = pre;
        self
    }

    // MCO2: its source.
    pub fn mco2(mut self, source: MCO2) -> CFGR
        ensures { Ok result ≡ spec.set_mco2 self source }
    {
        self.mco.mco2 = source;
        self
    }

    // MCO2: its prescaler.
    pub fn mco2pre(mut self, pre: MCOPRE) -> CFGR
        ensures { Ok result ≡ spec.set_mco2pre self pre }
    {
        self.mco.mco2pre = pre;
        self
    }

    // The Rust's default: SYSCLK at 216 MHz.
    pub fn set_defaults(self) -> Result<CFGR, Unset>
        ensures { result ≡ spec.set_defaults self }
    {
        self.sysclk(Hertz(216000000))
    }
}
