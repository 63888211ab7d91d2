// Refusals 9 to 11: the VCOs of PLLSAI and PLLI2S and PLLSAI's P output, with the M planned and the input as it is.
ghost use Rattle.std.specs.Prelude.{◌≡◌, ◌<◌};
ghost use Rattle.kinds.specs.Refusals.{unless};
ghost use Rattle.kinds.specs.Table.{Checked};
ghost use Rattle.plan.specs.Plan.{rough_of, sai_late, i2s_late, late_refusal};

use kinds::limits::within;
use kinds::{CFGR, Divider, Factor, Hertz, I2s, Refusal, Sai, input_of};

// What the two VCOs are made of beside their N.
#[derive(Clone, Copy)]
struct Base {
    input: Hertz,
    m: Divider,
    ghost divides: { 0 < m.0 },
}

impl Base {
    // floor(input/M) × N: the input is not cut to a multiple of 16.
    #[tactic(auto, unfolding(crate::specs::Plan::rough_of))]
    fn rough(self, n: Factor) -> u64
        ensures { result ≡ rough_of self.input.0 self.m.0 n.0 }
    {
        (self.input.0 / self.m.0) as u64 * n.0 as u64
    }

    #[tactic(auto, unfolding(crate::specs::Plan::sai_late, kinds::specs::Refusals::unless, kinds::specs::Limits::first_refusal))]
    fn check_sai(self, sai: Sai) -> Result<(), Refusal>
        ensures { result ≡ unless (sai_late self.input.0 self.m.0 sai) tt }
    {
        if !sai.use_pllsai {
            return Ok(());
        }
        let vco = self.rough(sai.n);
        within(192000000, 432000000, Refusal::PllsaiVco, vco)?;
        let hertz = vco / Divider::from(sai.p).0 as u64;
        within(0, 48000000, Refusal::PllsaiP, hertz)
    }

    #[tactic(auto, unfolding(crate::specs::Plan::i2s_late, kinds::specs::Refusals::unless))]
    fn check_i2s(self, i2s: I2s) -> Result<(), Refusal>
        ensures { result ≡ unless (i2s_late self.input.0 self.m.0 i2s) tt }
    {
        if !i2s.use_plli2s {
            return Ok(());
        }
        within(192000000, 432000000, Refusal::Plli2sVco, self.rough(i2s.n))
    }
}

// Refused with the first in turn of 9 to 11 that a configuration as planned gives. What it asks stands in a clause: no other function
// here asks it.
#[tactic(auto, using(crate::proofs::Planning::m_divides), unfolding(crate::specs::Plan::late_refusal, kinds::specs::Refusals::unless, kinds::specs::Limits::first_refusal))]
pub(crate) fn check_late(cfgr: CFGR) -> Result<(), Refusal>
    requires { Checked cfgr }
    ensures { result ≡ unless (late_refusal cfgr) tt }
{
    let base = Base {
        input: input_of(cfgr.sources.hse),
        m: cfgr.pll.m,
    };
    base.check_sai(cfgr.sai)?;
    base.check_i2s(cfgr.i2s)
}
