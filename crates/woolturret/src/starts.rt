// A start over lent numbers: the file taken and handed back, and what the start came to as numbers.
ghost use Rattle.std.specs.Prelude.{◌≡◌, length};
ghost use Rattle.kinds.specs.Refusals.{number_of};
ghost use Rattle.order.specs.Places as places;
ghost use Rattle.woolturret.specs.Starts as spec;

use super::Report;
use kinds::{CFGR, Refusal};
use numbers::CLOCKS;
use numbers::plans::clock_numbers;
use order::PLACES;
use startup::{Outcome, Started, freeze};

// 13 or 14.
pub(crate) fn refused(refusal: Refusal) -> Report
    ensures { result ≡ spec.refused_report (number_of refusal) }
{
    Report {
        refusal: u32::from(refusal),
        cut: 0,
        wait: 0,
        polls: 0,
    }
}

fn report(outcome: Outcome, polls: u32) -> Report
    ensures { result ≡ spec.report_of outcome polls }
{
    let done = Report {
        refusal: 0,
        cut: 0,
        wait: 0,
        polls,
    };
    match outcome {
        Outcome::Done(_) => done,
        Outcome::Cut(_) => Report { cut: 1, ..done },
        Outcome::Refused(refusal) => Report {
            refusal: u32::from(refusal),
            ..done
        },
        Outcome::Unanswered(wait) => Report {
            refusal: u32::from(Refusal::Unanswered),
            wait: u32::from(wait),
            ..done
        },
    }
}

// Nothing is written where the start is refused.
fn give_clocks(outcome: Outcome, lent: &mut [u32; CLOCKS])
    ensures { lent.new ≡ spec.clocks_of outcome lent.old }
{
    match outcome {
        Outcome::Done(derived) | Outcome::Cut(derived) => *lent = clock_numbers(derived),
        Outcome::Refused(_) | Outcome::Unanswered(_) => {}
    }
}

// The file is copied back in any case: a start that is refused, but for 12, has it as it came.
fn hand_back(started: Started, file: &mut [u32], clocks: &mut [u32; CLOCKS]) -> Report
    requires { length file.old ≡ places.PLACES }
    ensures { spec.Starts (spec.started_reply started clocks.old) result file.new clocks.new }
{
    file.copy_from_slice(&started.file);
    give_clocks(started.outcome, clocks);
    report(started.outcome, started.polls)
}

// A start of a configuration: 14 for a file of another number of places.
pub(crate) fn placed(
    cfgr: CFGR,
    file: &mut [u32],
    answers: &[u8],
    limit: u32,
    cut: u8,
    clocks: &mut [u32; CLOCKS],
) -> Report
    ensures { spec.Starts (spec.placed_reply cfgr file.old limit answers.now cut clocks.old) result file.new clocks.new }
{
    match file.as_array::<PLACES>() {
        Some(lent) => {
            let started = freeze(cfgr, *lent, limit, answers, cut);
            hand_back(started, file, clocks)
        }
        None => refused(Refusal::Malformed),
    }
}
