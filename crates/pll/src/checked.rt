// A configuration that the check passes: its input as planning uses it, and what its PLLs give by the fixed point.
ghost use Rattle.std.specs.Prelude.{◌≡◌};
ghost use Rattle.kinds.specs.Codes.{p_divider_of};
ghost use Rattle.kinds.specs.Config.{input_of};
ghost use Rattle.kinds.specs.Limits.{check_of};
ghost use Rattle.kinds.specs.Refusals.{unless};
ghost use Rattle.kinds.specs.Table.{Between};
ghost use Rattle.pll.specs.Fixed.{vco_of, out_of};
ghost use Rattle.pll.specs.Outputs.{base_of, p_output_of};

use crate::output;
use kinds::{CFGR, Divider, Factor, Hertz, Refusal, input_of};

// Made by the check alone: no other crate builds one.
#[derive(Clone, Copy, PartialEq, Eq)]
#[non_exhaustive]
pub struct Checked {
    pub cfgr: CFGR,
    pub ghost kept: { check_of cfgr ≡ 0 },
}

impl TryFrom<CFGR> for Checked {
    type Error = Refusal;

    ghost use Rattle.pll.specs.Checked.{told_of};

    ghost try_from_gives = { λ cfgr checked. told_of checked ≡ unless (check_of cfgr) cfgr };

    #[tactic(auto, unfolding(kinds::specs::Refusals::unless))]
    fn try_from(cfgr: CFGR) -> Result<Checked, Refusal> {
        cfgr.check()?;
        Ok(Checked { cfgr })
    }
}

impl Checked {
    // The input as planning uses it: cut to a multiple of 16.
    #[tactic(auto, unfolding(crate::specs::Outputs::base_of))]
    pub fn base(self) -> Hertz
        ensures { result.0 ≡ base_of (input_of self.cfgr.sources.hse) }
    {
        Hertz(input_of(self.cfgr.sources.hse).0 / 16 * 16)
    }

    // An output by its N and divider, with the main PLL's M: the settings keep their limits, and are never refused.
    #[tactic(auto, using(crate::proofs::Settings::output_kept))]
    fn output(self, n: Factor, d: Divider) -> u64
        requires { Between 50 432 n.0 × Between 2 15 d.0 }
        ensures { result ≡ out_of (vco_of (input_of self.cfgr.sources.hse) n.0 self.cfgr.pll.m.0) d.0 }
    {
        output(input_of(self.cfgr.sources.hse), self.cfgr.pll.m, n, d).unwrap()
    }

    // The present settings' P output, their Q output, and PLLSAI's P output, whether the PLL is used or not.
    #[tactic(auto, using(crate::proofs::Settings::n_kept, crate::proofs::Settings::p_kept), unfolding(crate::specs::Outputs::p_output_of))]
    pub fn p_output(self) -> u64
        ensures { result ≡ p_output_of self.cfgr }
    {
        self.output(self.cfgr.pll.n, Divider::from(self.cfgr.pll.p))
    }

    #[tactic(auto, using(crate::proofs::Settings::n_kept, crate::proofs::Settings::q_kept))]
    pub fn q_output(self) -> u64
        ensures { result ≡ out_of (vco_of (input_of self.cfgr.sources.hse) self.cfgr.pll.n.0 self.cfgr.pll.m.0) self.cfgr.pll.q.0 }
    {
        self.output(self.cfgr.pll.n, self.cfgr.pll.q)
    }

    #[tactic(auto, using(crate::proofs::Settings::sai_n_kept, crate::proofs::Settings::p_kept))]
    pub fn sai_output(self) -> u64
        ensures { result ≡ out_of (vco_of (input_of self.cfgr.sources.hse) self.cfgr.sai.n.0 self.cfgr.pll.m.0) (p_divider_of self.cfgr.sai.p) }
    {
        self.output(self.cfgr.sai.n, Divider::from(self.cfgr.sai.p))
    }
}
