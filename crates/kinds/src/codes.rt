// Enums as numbers, in the Rust's order from 0, and numbers read as enums; and P as the divider that it is.
ghost use Rattle.std.specs.Prelude.{◌≡◌};
ghost use Rattle.kinds.specs.Codes as spec;

use super::{Divider, HSEClockMode, LSEClockMode, MCO1, MCO2, MCOPRE, PLL48CLK, PLLP};

// A number that is the code of no value.
#[derive(Clone, Copy, PartialEq, Eq)]
pub struct UnknownCode(pub u32);

impl From<HSEClockMode> for u32 {
    ghost from_gives = { λ x n. n ≡ spec.hse_mode_code x };

    fn from(mode: HSEClockMode) -> u32 {
        match mode {
            HSEClockMode::Oscillator => 0,
            HSEClockMode::Bypass => 1,
        }
    }
}

impl TryFrom<u32> for HSEClockMode {
    type Error = UnknownCode;

    ghost try_from_gives = { spec.Decodes spec.hse_mode_code };

    fn try_from(code: u32) -> Result<Self, UnknownCode> {
        match code {
            0 => Ok(HSEClockMode::Oscillator),
            1 => Ok(HSEClockMode::Bypass),
            _ => Err(UnknownCode(code)),
        }
    }
}

impl From<LSEClockMode> for u32 {
    ghost from_gives = { λ x n. n ≡ spec.lse_mode_code x };

    fn from(mode: LSEClockMode) -> u32 {
        match mode {
            LSEClockMode::Oscillator => 0,
            LSEClockMode::Bypass => 1,
        }
    }
}

impl TryFrom<u32> for LSEClockMode {
    type Error = UnknownCode;

    ghost try_from_gives = { spec.Decodes spec.lse_mode_code };

    fn try_from(code: u32) -> Result<Self, UnknownCode> {
        match code {
            0 => Ok(LSEClockMode::Oscillator),
            1 => Ok(LSEClockMode::Bypass),
            _ => Err(UnknownCode(code)),
        }
    }
}

impl From<PLL48CLK> for u32 {
    ghost from_gives = { λ x n. n ≡ spec.pll48clk_code x };

    fn from(clock: PLL48CLK) -> u32 {
        match clock {
            PLL48CLK::Pllq => 0,
            PLL48CLK::Pllsai => 1,
        }
    }
}

impl TryFrom<u32> for PLL48CLK {
    type Error = UnknownCode;

    ghost try_from_gives = { spec.Decodes spec.pll48clk_code };

    fn try_from(code: u32) -> Result<Self, UnknownCode> {
        match code {
            0 => Ok(PLL48CLK::Pllq),
            1 => Ok(PLL48CLK::Pllsai),
            _ => Err(UnknownCode(code)),
        }
    }
}

impl From<PLLP> for u32 {
    ghost from_gives = { λ x n. n ≡ spec.pllp_code x };

    fn from(p: PLLP) -> u32 {
        match p {
            PLLP::Div2 => 0,
            PLLP::Div4 => 1,
            PLLP::Div6 => 2,
            PLLP::Div8 => 3,
        }
    }
}

impl TryFrom<u32> for PLLP {
    type Error = UnknownCode;

    ghost try_from_gives = { spec.Decodes spec.pllp_code };

    fn try_from(code: u32) -> Result<Self, UnknownCode> {
        match code {
            0 => Ok(PLLP::Div2),
            1 => Ok(PLLP::Div4),
            2 => Ok(PLLP::Div6),
            3 => Ok(PLLP::Div8),
            _ => Err(UnknownCode(code)),
        }
    }
}

impl From<MCO1> for u32 {
    ghost from_gives = { λ x n. n ≡ spec.mco1_code x };

    fn from(source: MCO1) -> u32 {
        match source {
            MCO1::Hsi => 0,
            MCO1::Lse => 1,
            MCO1::Hse => 2,
            MCO1::Pll => 3,
        }
    }
}

impl TryFrom<u32> for MCO1 {
    type Error = UnknownCode;

    ghost try_from_gives = { spec.Decodes spec.mco1_code };

    fn try_from(code: u32) -> Result<Self, UnknownCode> {
        match code {
            0 => Ok(MCO1::Hsi),
            1 => Ok(MCO1::Lse),
            2 => Ok(MCO1::Hse),
            3 => Ok(MCO1::Pll),
            _ => Err(UnknownCode(code)),
        }
    }
}

impl From<MCO2> for u32 {
    ghost from_gives = { λ x n. n ≡ spec.mco2_code x };

    fn from(source: MCO2) -> u32 {
        match source {
            MCO2::Sysclk => 0,
            MCO2::Plli2s => 1,
            MCO2::Hse => 2,
            MCO2::Pll => 3,
        }
    }
}

impl TryFrom<u32> for MCO2 {
    type Error = UnknownCode;

    ghost try_from_gives = { spec.Decodes spec.mco2_code };

    fn try_from(code: u32) -> Result<Self, UnknownCode> {
        match code {
            0 => Ok(MCO2::Sysclk),
            1 => Ok(MCO2::Plli2s),
            2 => Ok(MCO2::Hse),
            3 => Ok(MCO2::Pll),
            _ => Err(UnknownCode(code)),
        }
    }
}

impl From<MCOPRE> for u32 {
    ghost from_gives = { λ x n. n ≡ spec.mcopre_code x };

    fn from(pre: MCOPRE) -> u32 {
        match pre {
            MCOPRE::Div1 => 0,
            MCOPRE::Div2 => 1,
            MCOPRE::Div3 => 2,
            MCOPRE::Div4 => 3,
            MCOPRE::Div5 => 4,
        }
    }
}

impl TryFrom<u32> for MCOPRE {
    type Error = UnknownCode;

    ghost try_from_gives = { spec.Decodes spec.mcopre_code };

    fn try_from(code: u32) -> Result<Self, UnknownCode> {
        match code {
            0 => Ok(MCOPRE::Div1),
            1 => Ok(MCOPRE::Div2),
            2 => Ok(MCOPRE::Div3),
            3 => Ok(MCOPRE::Div4),
            4 => Ok(MCOPRE::Div5),
            _ => Err(UnknownCode(code)),
        }
    }
}

impl From<PLLP> for Divider {
    ghost from_gives = { λ p d. d.0 ≡ spec.p_divider_of p };

    fn from(p: PLLP) -> Divider {
        match p {
            PLLP::Div2 => Divider(2),
            PLLP::Div4 => Divider(4),
            PLLP::Div6 => Divider(6),
            PLLP::Div8 => Divider(8),
        }
    }
}
