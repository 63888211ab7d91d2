// Document 01, "Start-up": freeze, over a modelled register file, with limited polls and a cut. The names are those of rcc.rs.
#![tactic(auto)]

mod machine;
mod sections;

ghost use Rattle.std.specs.Prelude.{◌≡◌};
ghost use Rattle.kinds.specs.Refusals.{unless};
ghost use Rattle.startup.specs.Machine.{outcome_by, ended_of};
ghost use Rattle.startup.specs.Start.{refused_of, limit_of, start_of};

use clocks::Derived;
use kinds::limits::within;
use kinds::{CFGR, Refusal};
use machine::{Machine, Run};
use order::{Awaited, PLACES};
use plan::plan;

// How a start ended: whole or at the cut, with the plan's clocks and field codes; refused by 13 or the plan; or at a wait that was
// not answered, refusal 12. No Result: a cut is no refusal, and 12 hands back a file and polls.
#[derive(Clone, Copy, PartialEq, Eq)]
pub enum Outcome {
    Done(Derived),
    Cut(Derived),
    Refused(Refusal),
    Unanswered(Awaited),
}

#[derive(Clone, Copy, PartialEq, Eq)]
pub struct Started {
    pub outcome: Outcome,
    pub polls: u32,
    pub file: [u32; PLACES],
}

// 13 for a poll limit outside 1..65,535.
pub fn check_limit(limit: u32) -> Result<(), Refusal>
    ensures { result ≡ unless (limit_of limit) tt }
{
    within(1, 65535, Refusal::PollLimit, limit as u64)
}

// How a start ended, by its machine.
#[tactic(auto, unfolding(crate::specs::Machine::outcome_by))]
fn ending(stop: Option<Awaited>, left: u8, derived: Derived) -> Outcome
    ensures { result ≡ outcome_by stop left derived.clocks derived.config }
{
    match stop {
        Some(wait) => Outcome::Unanswered(wait),
        None if left == 0 => Outcome::Cut(derived),
        None => Outcome::Done(derived),
    }
}

// What the machine at its end comes to.
fn ended(m: Machine, derived: Derived) -> Started
    ensures { result ≡ ended_of derived.clocks derived.config m }
{
    let file = m.file;
    Started {
        outcome: ending(m.stop, m.left, derived),
        polls: m.polls,
        file,
    }
}

// A refusal that stores nothing.
fn refused(refusal: Refusal, file: [u32; PLACES]) -> Started
    ensures { result ≡ refused_of refusal file }
{
    Started {
        outcome: Outcome::Refused(refusal),
        polls: 0,
        file,
    }
}

// A start of any configuration over any file, with any poll limit, answers and cut.
pub fn freeze(cfgr: CFGR, file: [u32; PLACES], limit: u32, answers: &[u8], cut: u8) -> Started
    ensures { result ≡ start_of cfgr file limit answers.now cut }
{
    if let Err(refusal) = check_limit(limit) {
        return refused(refusal, file);
    }
    match plan(cfgr) {
        Err(unplanned) => refused(unplanned.refusal, file),
        Ok(planned) => {
            let mut run = Run::begin(file, cut, answers, limit);
            run.all_parts(planned.cfgr, planned.derived.config);
            ended(run.machine, planned.derived)
        }
    }
}
