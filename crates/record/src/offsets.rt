// Where each value of a record stands: the offset of its first byte, a number as `Fault` tells it. The reserved byte and the tail, to the end of the record, are
// zero.
pub const FLAGS: usize = 0;

pub const M: usize = 2;

pub const P: usize = 3;

pub const Q: usize = 4;

pub const PLLSAI_P: usize = 5;

pub const PLLSAI_Q: usize = 6;

pub const PLLI2S_R: usize = 7;

pub const PLLI2S_Q: usize = 8;

pub const MCO1: usize = 9;

pub const MCO1PRE: usize = 10;

pub const MCO2: usize = 11;

pub const MCO2PRE: usize = 12;

pub const RESERVED: usize = 13;

pub const N: usize = 14;

pub const PLLSAI_N: usize = 16;

pub const PLLI2S_N: usize = 18;

pub const HSE: usize = 20;

pub const HCLK: usize = 24;

pub const SYSCLK: usize = 28;

pub const PCLK1: usize = 32;

pub const PCLK2: usize = 36;

pub const TAIL: usize = 40;

pub const RECORD: usize = 64;
