// Lines put into a lent buffer: a word, numbers in decimal with a space before each, and a newline.
#![tactic(auto)]

ghost use Rattle.std.specs.Prelude.{◌≡◌, ◌+◌, ◌*◌, ◌≤◌, leb, length};
ghost use Rattle.text.specs.Decimal.{decimal};
ghost use Rattle.text.specs.Line.{spaced, line_of, longest, ok_line, no_line};
ghost use Rattle.text.specs.Line as line;
ghost use Rattle.text.specs.Placing.{Wrote, Placing};

use itoa::write_digits;

// How many quantities the line of a plan has, and the most bytes of that line.
pub const QUANTITIES: usize = 14;

pub const LINE: usize = 157;

// How many digits a number has.
fn width(n: u32) -> usize
    ensures { result ≡ length (decimal n) }
{
    n.max(1).ilog10() as usize + 1
}

// Each of these hands back the place after what it put. `out` and `at` stay two: a struct that holds a lent buffer owes of each
// function a clause more, that it holds the same buffer still.
fn put_text(out: &mut [u8], at: usize, text: &[u8]) -> usize
    requires { at + length text.now ≤ length out.old }
    ensures { Wrote out.old at text.now out.new result }
{
    out[at..at + text.len()].copy_from_slice(text);
    at + text.len()
}

fn put_decimal(out: &mut [u8], at: usize, n: u32) -> usize
    requires { at + length (decimal n) ≤ length out.old }
    ensures { Wrote out.old at (decimal n) out.new result }
{
    let end = at + width(n);
    write_digits(n as u64, out, end);
    end
}

fn put_numbers(out: &mut [u8], at: usize, ns: &[u32]) -> usize
    requires { at + 11 * length ns.now ≤ length out.old }
    ensures wrote { Wrote out.old at (spaced ns.now) out.new result }
    ensures upper_bound { result ≤ at + 11 * length ns.now }
{
    let mut next = at;
    for &n in ns {
        let p = put_text(out, next, b" ");
        next = put_decimal(out, p, n);
    }
    next
}

// Whether the word, the numbers, each of ten digits, and a newline fit.
fn has_room(out: &[u8], at: usize, word: &[u8], ns: &[u32]) -> bool
    ensures { result ≡ leb (at + longest word.now ns.now) (length out.now) }
{
    at < out.len()
        && word.len() < out.len() - at
        && ns.len() <= (out.len() - at - word.len() - 1) / 11
}

// A line, where there is room for the longest of so many letters and numbers: the place after it. Without room nothing is put.
pub fn put_line(out: &mut [u8], at: usize, word: &[u8], ns: &[u32]) -> Option<usize>
    ensures { Placing out.old at (line_of word.now ns.now) (longest word.now ns.now) out.new result }
{
    if !has_room(out, at, word, ns) {
        return None;
    }
    let p = put_text(out, at, word);
    let q = put_numbers(out, p, ns);
    Some(put_text(out, q, b"\n"))
}

// The line of a plan.
pub fn ok_line(out: &mut [u8], at: usize, ns: &[u32; QUANTITIES]) -> Option<usize>
    ensures { Placing out.old at (ok_line ns.now) line.LINE out.new result }
{
    put_line(out, at, b"ok", ns)
}

// The line of a refusal, by its number: the line is document 01's, and text knows no refusals.
pub fn no_line(out: &mut [u8], at: usize, number: u32) -> Option<usize>
    ensures { Placing out.old at (no_line number) line.NOLINE out.new result }
{
    put_line(out, at, b"no", &[number])
}
