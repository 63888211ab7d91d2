// Functions for C: record bytes and numbers in, numbers out. include/woolturret.h declares them.
#![tactic(auto)]

mod starts;

ghost use Rattle.std.specs.Prelude.{◌≡◌};
ghost use Rattle.record.specs.Reading.{read_of};
ghost use Rattle.answer.specs.Answer.{answer_line};
ghost use Rattle.pll.specs.Fixed.{output_of};
ghost use Rattle.pll.specs.Walk.{search_of};
ghost use Rattle.numbers.specs.Answers.{window_of};
ghost use Rattle.woolturret.specs.Replies.{Replied, check_reply, set_reply, call_reply, search_reply, Told};
ghost use Rattle.numbers.specs.Plans.{Configures, Derives, Plans};
ghost use Rattle.numbers.specs.Plans as replies;
ghost use Rattle.woolturret.specs.Plans.{configure_reply, derive_reply, plan_reply};
ghost use Rattle.woolturret.specs.Lines.{Lines};
ghost use Rattle.woolturret.specs.Starts.{Starts, start_reply};
ghost use Rattle.calls.specs.Named.{named_of};

use answer::put_answer;
use calls::Setter;
use clocks::calculate_clocks;
use configure::{Unplanned, pll_configure};
use kinds::{CFGR, Divider, Factor, Hertz, Refusal};
use numbers::{CLOCKS, CONFIG, SEARCH, answers, plans};
use plan::plan;
use startup::check_limit;
use text::LINE;

// The check of 1 to 6 of the configuration that a record holds: 0 where nothing is refused, 14 for a malformed record. Here and below
// the number stands in its arm, beside what is written to what C lent.
#[unsafe(no_mangle)]
pub extern "C" fn woolturret_check(bytes: &[u8]) -> u32
    ensures { result ≡ check_reply (read_of bytes.now) }
{
    match record::read_record(bytes) {
        Err(_) => u32::from(Refusal::Malformed),
        Ok(cfgr) => match cfgr.check() {
            Ok(()) => 0,
            Err(refusal) => u32::from(refusal),
        },
    }
}

// A call on a configuration: its number, and the configuration handed back in out; 14 and out as it was for an unknown call.
fn reply(cfgr: CFGR, call: Option<Setter>, out: &mut [u32; CONFIG]) -> u32
    ensures { Replied (call_reply cfgr call out.old) result out.new }
{
    match call {
        None => u32::from(Refusal::Malformed),
        Some(setter) => match calls::call(cfgr, setter) {
            Ok(set) => {
                *out = numbers::config_numbers(set);
                0
            }
            Err(refused) => {
                *out = numbers::config_numbers(refused.cfgr);
                u32::from(refused.refusal)
            }
        },
    }
}

// One setter called on the configuration that a record holds: its number, and the configuration handed back, as numbers, in out.
// 14, and out as it was, for a malformed record, an unknown setter or an unknown code.
#[unsafe(no_mangle)]
pub extern "C" fn woolturret_set(
    bytes: &[u8],
    setter: u32,
    a: u32,
    b: u32,
    out: &mut [u32; CONFIG],
) -> u32
    ensures { Replied (set_reply (read_of bytes.now) (named_of setter a b) out.old) result out.new }
{
    match record::read_record(bytes) {
        Err(_) => u32::from(Refusal::Malformed),
        Ok(cfgr) => reply(cfgr, calls::call_of(setter, a, b), out),
    }
}

// The search for the settings of the main PLL, its windows by flags: its number, and passes, M, N, P, Q in out.
#[unsafe(no_mangle)]
pub extern "C" fn woolturret_search(
    input: u32,
    p: bool,
    pmin: u32,
    pmax: u32,
    q: bool,
    qmin: u32,
    qmax: u32,
    out: &mut [u32; SEARCH],
) -> u32
    ensures { Replied (search_reply (search_of input (window_of p pmin pmax) (window_of q qmin qmax))) result out.new }
{
    let found = pll::calculate_mnpq(
        Hertz(input),
        answers::window(p, pmin, pmax),
        answers::window(q, qmin, qmax),
    );
    *out = answers::found_numbers(found);
    answers::number_of(found)
}

// The output of PLL settings as they stand, by fixed point: its number, and the hertz in out; refused, out is as it was.
#[unsafe(no_mangle)]
pub extern "C" fn woolturret_output(input: u32, m: u32, n: u32, d: u32, out: &mut u64) -> u32
    ensures { Told (output_of input m n d) out.old result out.new }
{
    match pll::output(Hertz(input), Divider(m), Factor(n), Divider(d)) {
        Err(refused) => u32::from(refused),
        Ok(hertz) => {
            *out = hertz;
            0
        }
    }
}

// An answer with its refusal by its number: as it is told with the passes, and alone.
fn told<T: Drop>(answer: Result<T, Unplanned>) -> Result<T, plans::Refused>
    ensures { result ≡ replies.told answer }
{
    Ok(answer?)
}

fn numbered<T: Drop>(answer: Result<T, Refusal>) -> Result<T, u32>
    ensures { result ≡ replies.numbered answer }
{
    Ok(answer?)
}

// pll_configure of the configuration that a record holds: its number, the configuration as planned in config, the search's passes.
// Refused, config is as it was; passes are told in every case, 0 where no search ran.
#[unsafe(no_mangle)]
pub extern "C" fn woolturret_configure(
    bytes: &[u8],
    config: &mut [u32; CONFIG],
    passes: &mut u32,
) -> u32
    ensures { Configures (configure_reply (read_of bytes.now) config.old) result config.new passes.new }
{
    match record::read_record(bytes) {
        Err(_) => {
            *passes = 0;
            u32::from(Refusal::Malformed)
        }
        Ok(cfgr) => plans::configured(told(pll_configure(cfgr)), config, passes),
    }
}

// calculate_clocks of the configuration that a record holds, its settings as they stand: its number, and the clocks and field codes
// in clocks; refused, clocks is as it was.
#[unsafe(no_mangle)]
pub extern "C" fn woolturret_derive(bytes: &[u8], clocks: &mut [u32; CLOCKS]) -> u32
    ensures { Derives (derive_reply (read_of bytes.now) clocks.old) result clocks.new }
{
    match record::read_record(bytes) {
        Err(_) => u32::from(Refusal::Malformed),
        Ok(cfgr) => plans::derived(numbered(calculate_clocks(cfgr)), clocks),
    }
}

// The plan of the configuration that a record holds: its number, the configuration as planned, its clocks and field codes, the passes.
// Refused, config and clocks are as they were; passes are told in every case, 0 where no search ran.
#[unsafe(no_mangle)]
pub extern "C" fn woolturret_plan(
    bytes: &[u8],
    config: &mut [u32; CONFIG],
    clocks: &mut [u32; CLOCKS],
    passes: &mut u32,
) -> u32
    ensures { Plans (plan_reply (read_of bytes.now) config.old clocks.old) result config.new clocks.new passes.new }
{
    match record::read_record(bytes) {
        Err(_) => {
            *passes = 0;
            u32::from(Refusal::Malformed)
        }
        Ok(cfgr) => plans::planned(told(plan(cfgr)), config, clocks, passes),
    }
}

// The program's line of any bytes, at the start of out; its length is answered, and the rest of out is as it was.
#[unsafe(no_mangle)]
pub extern "C" fn woolturret_line(bytes: &[u8], out: &mut [u8; LINE]) -> u32
    ensures { Lines (answer_line bytes.now) out.old result out.new }
{
    let line: &mut [u8] = out;
    match put_answer(bytes, line, 0) {
        Some(next) => next as u32,
        None => 0,
    }
}

// What a start came to, as C gets it: 0 or its refusal's number; 1 if it ended at the cut; the wait that 12 names, else 0; the polls made.
#[repr(C)]
#[derive(Clone, Copy, PartialEq, Eq)]
pub struct Report {
    pub refusal: u32,
    pub cut: u32,
    pub wait: u32,
    pub polls: u32,
}

// A start of the configuration that a record holds, over the lent file, one byte of answers a poll. Accepted, clocks are the plan's;
// 12 leaves the file as the stores so far made it, and any other refusal leaves it as it was.
#[unsafe(no_mangle)]
pub extern "C" fn woolturret_start(
    bytes: &[u8],
    file: &mut [u32],
    answers: &[u8],
    limit: u32,
    cut: u8,
    clocks: &mut [u32; CLOCKS],
) -> Report
    ensures { Starts (start_reply (read_of bytes.now) file.old limit answers.now cut clocks.old) result file.new clocks.new }
{
    if let Err(refusal) = check_limit(limit) {
        return starts::refused(refusal);
    }
    match record::read_record(bytes) {
        Err(_) => starts::refused(Refusal::Malformed),
        Ok(cfgr) => starts::placed(cfgr, file, answers, limit, cut, clocks),
    }
}
