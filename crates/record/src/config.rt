// The configuration that the bytes of a record hold, group by group.
ghost use Rattle.std.specs.Prelude.{◌≡◌, ◌+◌, ◌<◌, ◌≤◌};
ghost use Rattle.record.specs.Config as spec;
ghost use Rattle.record.specs.Places as places;

use super::numbers::Record;
use super::{flags, offsets};
use kinds::codes::UnknownCode;
use kinds::{
    CFGR, Divider, Factor, HSEClock, Hertz, I2s, LSEClockMode, MCO1, MCO2, MCOPRE, Mco, PLL48CLK,
    PLLP, Pll, Requests, Sai, Sources,
};

// What a code reads as. No code past the last is in a record that keeps the layout: it reads as the last.
#[tactic(auto, using(crate::proofs::Codes::value_read, crate::proofs::Codes::last_read))]
fn coded<T: TryFrom<u32, Error = UnknownCode> + Drop>(code: u8, last: T) -> T
    ensures { spec.Coded T.try_from_gives code last result }
{
    match T::try_from(code as u32) {
        Ok(value) => value,
        Err(_) => last,
    }
}

// Each by its table.
#[tactic(auto, using(crate::proofs::Codes::p_coded))]
fn p_of(code: u8) -> PLLP
    ensures { result ≡ spec.p_of code }
{
    coded(code, PLLP::Div8)
}

#[tactic(auto, using(crate::proofs::Codes::mco1_coded))]
fn mco1_of(code: u8) -> MCO1
    ensures { result ≡ spec.mco1_of code }
{
    coded(code, MCO1::Pll)
}

#[tactic(auto, using(crate::proofs::Codes::mco2_coded))]
fn mco2_of(code: u8) -> MCO2
    ensures { result ≡ spec.mco2_of code }
{
    coded(code, MCO2::Pll)
}

#[tactic(auto, using(crate::proofs::Codes::mcopre_coded))]
fn mcopre_of(code: u8) -> MCOPRE
    ensures { result ≡ spec.mcopre_of code }
{
    coded(code, MCOPRE::Div5)
}

// The first flag of the record says whether a clock or choice is there, the second which.
fn chosen<T: Drop>(present: bool, second: bool, with: T, without: T) -> Option<T>
    ensures { result ≡ spec.chosen present second with without }
{
    match (present, second) {
        (true, true) => Some(with),
        (true, false) => Some(without),
        (false, _) => None,
    }
}

impl Record<'_> {
    // A divider is a byte, a factor a u16, a frequency a u32.
    #[tactic(auto, unfolding(crate::specs::Config::divider_at))]
    fn divider_at(&self, at: usize) -> Divider
        requires { at < places.RECORD }
        ensures { result ≡ spec.divider_at self.now.bytes.now at }
    {
        Divider(u32::from(self.byte(at)))
    }

    #[tactic(auto, unfolding(crate::specs::Config::factor_at))]
    fn factor_at(&self, at: usize) -> Factor
        requires { at + 2 ≤ places.RECORD }
        ensures { result ≡ spec.factor_at self.now.bytes.now at }
    {
        Factor(u32::from(self.u16_at(at)))
    }

    #[tactic(auto, unfolding(crate::specs::Config::hertz_at))]
    fn hertz_at(&self, at: usize) -> Hertz
        requires { at + 4 ≤ places.RECORD }
        ensures { result ≡ spec.hertz_at self.now.bytes.now at }
    {
        Hertz(self.u32_at(at))
    }

    // The frequency at the offset, if the flag of this value is on.
    #[tactic(auto, unfolding(crate::specs::Config::request_at))]
    fn request_at(&self, value: u16, at: usize) -> Option<Hertz>
        requires { (0 < value) × (at + 4 ≤ places.RECORD) }
        ensures { result ≡ spec.request_at self.now.bytes.now value at }
    {
        let freq = self.hertz_at(at);
        if self.flag(value) { Some(freq) } else { None }
    }

    #[tactic(auto, unfolding(crate::specs::Config::sources_of))]
    fn sources(&self) -> Sources
        ensures { result ≡ spec.sources_of self.now.bytes.now }
    {
        let freq = self.hertz_at(offsets::HSE);
        let hse = chosen(
            self.flag(flags::HSE),
            self.flag(flags::HSE_BYPASS),
            HSEClock::Bypass(freq),
            HSEClock::Oscillator(freq),
        );
        let lse = chosen(
            self.flag(flags::LSE),
            self.flag(flags::LSE_BYPASS),
            LSEClockMode::Bypass,
            LSEClockMode::Oscillator,
        );
        let lsi = self.flag(flags::LSI);
        Sources { hse, lse, lsi }
    }

    #[tactic(auto, unfolding(crate::specs::Config::requests_of))]
    fn requests(&self) -> Requests
        ensures { result ≡ spec.requests_of self.now.bytes.now }
    {
        let hclk = self.request_at(flags::HCLK, offsets::HCLK);
        let sysclk = self.request_at(flags::SYSCLK, offsets::SYSCLK);
        let pclk1 = self.request_at(flags::PCLK1, offsets::PCLK1);
        let pclk2 = self.request_at(flags::PCLK2, offsets::PCLK2);
        Requests {
            hclk,
            sysclk,
            pclk1,
            pclk2,
        }
    }

    #[tactic(auto, unfolding(crate::specs::Config::pll_of))]
    fn pll(&self) -> Pll
        ensures { result ≡ spec.pll_of self.now.bytes.now }
    {
        let use_pll = self.flag(flags::USE_PLL);
        let pll48clk = chosen(
            self.flag(flags::CHOICE48),
            self.flag(flags::CHOICE48_PLLSAI),
            PLL48CLK::Pllsai,
            PLL48CLK::Pllq,
        );
        let m = self.divider_at(offsets::M);
        let n = self.factor_at(offsets::N);
        let p = p_of(self.byte(offsets::P));
        let q = self.divider_at(offsets::Q);
        Pll {
            use_pll,
            pll48clk,
            m,
            n,
            p,
            q,
        }
    }

    #[tactic(auto, unfolding(crate::specs::Config::sai_of))]
    fn sai(&self) -> Sai
        ensures { result ≡ spec.sai_of self.now.bytes.now }
    {
        let use_pllsai = self.flag(flags::PLLSAI);
        let n = self.factor_at(offsets::PLLSAI_N);
        let p = p_of(self.byte(offsets::PLLSAI_P));
        let q = self.divider_at(offsets::PLLSAI_Q);
        Sai {
            use_pllsai,
            n,
            p,
            q,
        }
    }

    #[tactic(auto, unfolding(crate::specs::Config::i2s_of))]
    fn i2s(&self) -> I2s
        ensures { result ≡ spec.i2s_of self.now.bytes.now }
    {
        let use_plli2s = self.flag(flags::PLLI2S);
        let n = self.factor_at(offsets::PLLI2S_N);
        let r = self.divider_at(offsets::PLLI2S_R);
        let q = self.divider_at(offsets::PLLI2S_Q);
        I2s {
            use_plli2s,
            n,
            r,
            q,
        }
    }

    #[tactic(auto, unfolding(crate::specs::Config::mco_of))]
    fn mco(&self) -> Mco
        ensures { result ≡ spec.mco_of self.now.bytes.now }
    {
        let mco1 = mco1_of(self.byte(offsets::MCO1));
        let mco1pre = mcopre_of(self.byte(offsets::MCO1PRE));
        let mco2 = mco2_of(self.byte(offsets::MCO2));
        let mco2pre = mcopre_of(self.byte(offsets::MCO2PRE));
        Mco {
            mco1,
            mco1pre,
            mco2,
            mco2pre,
        }
    }

    #[tactic(auto, unfolding(crate::specs::Config::cfgr_of))]
    pub(crate) fn cfgr(&self) -> CFGR
        ensures { result ≡ spec.cfgr_of self.now.bytes.now }
    {
        let sources = self.sources();
        let requests = self.requests();
        let pll = self.pll();
        let sai = self.sai();
        let i2s = self.i2s();
        let mco = self.mco();
        CFGR {
            sources,
            requests,
            pll,
            sai,
            i2s,
            mco,
        }
    }
}
