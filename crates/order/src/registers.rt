// The register file: document 01's 35 places in its order, what a plan has to store, and the stores that name several of them at once.
ghost use Rattle.std.specs.Prelude.{◌≡◌};
ghost use Rattle.order.specs.Files.{Wrote};
ghost use Rattle.order.specs.Order.{src_of, sw_of, chosen, pll_stored, pllcfgr, pllsaicfgr, plli2scfgr, mco_fields, acr, prescalers};

use clocks::InternalRCCConfig;
use kinds::{HSEClock, I2s, Mco, Pll, Sai};

// How many places there are. Each is a number: C lends the file by position.
pub const PLACES: usize = 35;

pub const HSION: usize = 0;

pub const HSEBYP: usize = 1;

pub const HSEON: usize = 2;

pub const PLLON: usize = 3;

pub const PLLSAION: usize = 4;

pub const PLLI2SON: usize = 5;

pub const SW: usize = 6;

pub const MCO1: usize = 7;

pub const MCO1PRE: usize = 8;

pub const MCO2: usize = 9;

pub const MCO2PRE: usize = 10;

pub const PPRE1: usize = 11;

pub const PPRE2: usize = 12;

pub const HPRE: usize = 13;

pub const PLLM: usize = 14;

pub const PLLN: usize = 15;

pub const PLLP: usize = 16;

pub const PLLQ: usize = 17;

pub const PLLSRC: usize = 18;

pub const PWREN: usize = 19;

pub const VOS: usize = 20;

pub const ODEN: usize = 21;

pub const ODSWEN: usize = 22;

pub const LSEBYP: usize = 23;

pub const LSEON: usize = 24;

pub const LSION: usize = 25;

pub const PLLSAIN: usize = 26;

pub const PLLSAIP: usize = 27;

pub const PLLSAIQ: usize = 28;

pub const CK48MSEL: usize = 29;

pub const PLLI2SN: usize = 30;

pub const PLLI2SR: usize = 31;

pub const PLLI2SQ: usize = 32;

pub const LATENCY: usize = 33;

pub const OTHER: usize = 34;

// 1 with HSE: PLLSRC, and the code of SW.
fn pllsrc(hse: Option<HSEClock>) -> u32
    ensures { result ≡ src_of hse }
{
    u32::from(hse.is_some())
}

// SW, by its code as it is stored: PLL if use_pll, else HSE if given, else HSI.
pub fn sw(hse: Option<HSEClock>, pll: Pll) -> u32
    ensures { result ≡ sw_of hse pll }
{
    if pll.use_pll { 2 } else { pllsrc(hse) }
}

// Whether the PLL's fields are stored: use_pll or a 48 MHz choice.
pub fn is_stored(pll: Pll) -> bool
    ensures { result ≡ pll_stored pll }
{
    pll.use_pll || pll.pll48clk.is_some()
}

// The five PLL fields. As each store of several places, it gives the whole file: once a start has ended, no place of it is stored.
pub fn pllcfgr(mut file: [u32; PLACES], hse: Option<HSEClock>, pll: Pll) -> [u32; PLACES]
    ensures { Wrote file (pllcfgr hse pll) result }
{
    file[PLLM] = pll.m.0;
    file[PLLN] = pll.n.0;
    file[PLLP] = u32::from(pll.p);
    file[PLLQ] = pll.q.0;
    file[PLLSRC] = pllsrc(hse);
    file
}

// PLLSAI's three fields.
pub fn pllsaicfgr(mut file: [u32; PLACES], sai: Sai) -> [u32; PLACES]
    ensures { Wrote file (pllsaicfgr sai) result }
{
    file[PLLSAIN] = sai.n.0;
    file[PLLSAIP] = u32::from(sai.p);
    file[PLLSAIQ] = sai.q.0;
    file
}

// PLLI2S's three fields.
pub fn plli2scfgr(mut file: [u32; PLACES], i2s: I2s) -> [u32; PLACES]
    ensures { Wrote file (plli2scfgr i2s) result }
{
    file[PLLI2SN] = i2s.n.0;
    file[PLLI2SR] = i2s.r.0;
    file[PLLI2SQ] = i2s.q.0;
    file
}

// The four MCO fields.
pub fn mco(mut file: [u32; PLACES], mco: Mco) -> [u32; PLACES]
    ensures { Wrote file (mco_fields mco) result }
{
    file[MCO1] = u32::from(mco.mco1);
    file[MCO1PRE] = u32::from(mco.mco1pre);
    file[MCO2] = u32::from(mco.mco2);
    file[MCO2PRE] = u32::from(mco.mco2pre);
    file
}

// LATENCY, with the other bits of ACR to 0: the Rust writes the whole register.
pub fn acr(mut file: [u32; PLACES], config: InternalRCCConfig) -> [u32; PLACES]
    ensures { Wrote file (acr config) result }
{
    file[LATENCY] = config.flash_waitstates as u32;
    file[OTHER] = 0;
    file
}

// PPRE1, PPRE2, HPRE.
pub fn prescalers(mut file: [u32; PLACES], config: InternalRCCConfig) -> [u32; PLACES]
    ensures { Wrote file (prescalers config) result }
{
    file[PPRE1] = config.ppre1 as u32;
    file[PPRE2] = config.ppre2 as u32;
    file[HPRE] = config.hpre as u32;
    file
}
