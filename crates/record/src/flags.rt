// The flags of the u16 at byte 0, from bit 0 on, each by its bit's value, a number as the record has it.
pub const HSE: u16 = 1;

pub const HSE_BYPASS: u16 = 2;

pub const HCLK: u16 = 4;

pub const SYSCLK: u16 = 8;

pub const PCLK1: u16 = 16;

pub const PCLK2: u16 = 32;

pub const LSE: u16 = 64;

pub const LSE_BYPASS: u16 = 128;

pub const LSI: u16 = 256;

pub const USE_PLL: u16 = 512;

pub const CHOICE48: u16 = 1024;

pub const CHOICE48_PLLSAI: u16 = 2048;

pub const PLLSAI: u16 = 4096;

pub const PLLI2S: u16 = 8192;

// Bits 14, 15 are zero: the flags together are below this.
pub const BIT_14: u16 = 16384;
