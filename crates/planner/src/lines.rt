// The text of a piece of input: the line of each whole record, and one for a short tail.
ghost use Rattle.std.specs.Prelude.{◌+◌, ◌*◌, ◌/◌, ◌≤◌, length};
ghost use Rattle.record.specs.Places as places;
ghost use Rattle.text.specs.Line as line;
ghost use Rattle.answer.specs.Answer.{answer_line};
ghost use Rattle.planner.specs.Output.{text_of, Filled, Begins};

use answer::put_answer;
use record::RECORD;

fn put_record(bytes: &[u8], out: &mut [u8], at: usize) -> usize
    requires { at + line.LINE ≤ length out.old }
    ensures { Filled out.old at (answer_line bytes.now) line.LINE out.new result }
{
    put_answer(bytes, out, at).unwrap_or(at)
}

// The whole text, from the start of out.
pub(crate) fn put_text(input: &[u8], out: &mut [u8]) -> usize
    requires { line.LINE * (length input.now / places.RECORD + 1) ≤ length out.old }
    ensures { Begins out.new result (text_of input.now) }
{
    let (records, tail) = input.as_chunks::<RECORD>();
    let mut next = 0;
    for record in records {
        next = put_record(record, out, next);
    }
    if tail.is_empty() {
        return next;
    }
    put_record(tail, out, next)
}
