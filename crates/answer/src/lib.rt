// Document 01, "Request record", the program's line: what the bytes of one record are answered with, as a value and as its line.
#![tactic(auto)]

ghost use Rattle.std.specs.Prelude.{◌≡◌, Ok, Err};
ghost use Rattle.text.specs.Line as line;
ghost use Rattle.text.specs.Placing.{Placing};
ghost use Rattle.answer.specs.Answer as spec;

use clocks::Derived;
use configure::Unplanned;
use kinds::{Divider, Pll, Refusal};
use plan::{Planned, plan};
use record::{Fault, read_record};
use text::{LINE, QUANTITIES, no_line, ok_line};

// The passes of the search, 0 where none ran, and the quantities of the plan's line, in its order.
#[derive(Clone, Copy, PartialEq, Eq)]
pub struct Served {
    pub passes: u32,
    pub quantities: [u32; QUANTITIES],
}

// Why there is no plan, the offset of the byte that is named, none for now as document 01 names none, and the passes.
#[derive(Clone, Copy, PartialEq, Eq)]
pub struct Refused {
    pub refusal: Refusal,
    pub offset: Option<u32>,
    pub passes: u32,
}

impl From<Fault> for Refused {
    ghost from_gives = { λ fault refused. Err refused ≡ spec.read_answer (Err fault) };

    #[tactic(auto, unfolding(crate::specs::Answer::read_answer, crate::specs::Answer::refused_answer))]
    fn from(_: Fault) -> Refused {
        Refused {
            refusal: Refusal::Malformed,
            offset: None,
            passes: 0,
        }
    }
}

impl From<Unplanned> for Refused {
    ghost from_gives = { λ unplanned refused. Err refused ≡ spec.planned_answer (Err unplanned) };

    #[tactic(auto, unfolding(crate::specs::Answer::planned_answer, crate::specs::Answer::refused_answer))]
    fn from(unplanned: Unplanned) -> Refused {
        Refused {
            refusal: unplanned.refusal,
            offset: None,
            passes: unplanned.passes,
        }
    }
}

// A refusal as its line tells it: by its number, which may be any.
#[derive(Clone, Copy, PartialEq, Eq)]
pub struct Numbered {
    pub number: u32,
    pub offset: Option<u32>,
    pub passes: u32,
}

impl From<Refused> for Numbered {
    ghost from_gives = { λ refused numbered. numbered ≡ spec.numbered_of refused };

    fn from(refused: Refused) -> Numbered {
        Numbered {
            number: u32::from(refused.refusal),
            offset: refused.offset,
            passes: refused.passes,
        }
    }
}

#[tactic(auto, using(crate::proofs::Lines::bit), unfolding(crate::specs::Answer::quantities_of))]
fn quantities_of(pll: Pll, derived: Derived) -> [u32; QUANTITIES]
    ensures { result ≡ spec.quantities_of pll derived.clocks derived.config }
{
    let Derived { clocks, config } = derived;
    [
        clocks.sysclk.0,
        clocks.hclk.0,
        clocks.pclk1.0,
        clocks.pclk2.0,
        clocks.timclk1.0,
        clocks.timclk2.0,
        pll.m.0,
        pll.n.0,
        Divider::from(pll.p).0,
        pll.q.0,
        u32::from(config.flash_waitstates),
        u32::from(config.vos_scale),
        u32::from(config.overdrive),
        u32::from(clocks.pll48clk_valid),
    ]
}

// The answer of any bytes.
#[tactic(auto, unfolding(crate::specs::Answer::answer_of, crate::specs::Answer::read_answer, crate::specs::Answer::planned_answer))]
pub fn answer_of(bytes: &[u8]) -> Result<Served, Refused>
    ensures { result ≡ spec.answer_of bytes.now }
{
    let Planned {
        cfgr,
        passes,
        derived,
    } = plan(read_record(bytes)?)?;
    Ok(Served {
        passes,
        quantities: quantities_of(cfgr.pll, derived),
    })
}

// The line of an answer, its refusal by any number, put where as many places are left as the longest has.
#[tactic(auto, using(crate::proofs::Lines::refused), unfolding(crate::specs::Answer::line_told))]
pub fn put_line_of(answer: Result<Served, Numbered>, out: &mut [u8], at: usize) -> Option<usize>
    ensures { Placing out.old at (spec.line_told answer) line.LINE out.new result }
{
    if out.len().checked_sub(LINE)? < at {
        return None;
    }
    match answer {
        Ok(served) => ok_line(out, at, &served.quantities),
        Err(refused) => no_line(out, at, refused.number),
    }
}

// An answer with its refusal by its number.
fn told(answer: Result<Served, Refused>) -> Result<Served, Numbered>
    ensures { result ≡ spec.told answer }
{
    Ok(answer?)
}

// The line of any bytes.
pub fn put_answer(bytes: &[u8], out: &mut [u8], at: usize) -> Option<usize>
    ensures { Placing out.old at (spec.answer_line bytes.now) line.LINE out.new result }
{
    put_line_of(told(answer_of(bytes)), out, at)
}
