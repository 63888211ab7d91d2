// The program: reads up to 1,000,000 records from standard input and writes one line for each.
#![tactic(auto)]

mod lines;

ghost use Rattle.std.specs.Prelude.{◌≡◌, true, ◌+◌, ◌*◌, ◌-◌, ◌/◌, ◌<◌, ◌≤◌, length, take};
ghost use Rattle.record.specs.Places as places;
ghost use Rattle.text.specs.Line as line;
ghost use Rattle.planner.specs.Output.{text_of, Holds};
ghost use Rattle.planner.specs.Asking.{asked_of, answered_of, rest_of, Took, Stepped};

use record::RECORD;
use std::io::{Print, Read, Stderr, Stdin, Stdout};

// The records that are read at most, and the bytes of a piece, 1,024 of them.
const RECORDS: usize = 1_000_000;

const PIECE: usize = 65536;

// Places for 1,025 lines of 157 bytes: those of a piece, and that of a tail.
const TEXT: usize = 160925;

// What a piece is read from, its text written to, and what is wrong told on. Not generic: the runtime has one stream of each kind.
#[derive(Clone, Copy)]
struct Streams {
    stdin: Stdin,
    stdout: Stdout,
    stderr: Stderr,
}

// How many bytes came in, and whether a read failed: then no more is read. No Result: what came in before is answered too.
#[derive(Clone, Copy)]
struct Taken {
    got: usize,
    failed: bool,
}

// What a piece came to: what came in, whether its text was written, and how many records may still be read. No Result: what came in
// and what is left are told also where the text was not written.
#[derive(Clone, Copy)]
struct Piece {
    taken: Taken,
    written: bool,
    left: usize,
}

// Reads until so many bytes are in, the input ends or a read fails. By `while`: each read brings as many bytes as it will.
fn take_in(mut stdin: Stdin, input: &mut [u8], want: usize) -> Taken
    requires { want ≤ length input.old }
    ensures { Took want result }
{
    let mut got = 0;
    while got < want {
        match stdin.read(&mut input[got..want]) {
            Ok(0) => break,
            Ok(some) => got += some,
            Err(_) => return Taken { got, failed: true },
        }
    }
    Taken { got, failed: false }
}

// The bytes that are answered: all that came in or, after a failed read, the whole records among them.
fn answered(taken: Taken) -> usize
    ensures { result ≡ answered_of taken }
{
    if taken.failed {
        return taken.got / RECORD * RECORD;
    }
    taken.got
}

// The bytes to ask for while so many records may still be read: never one past the last of them.
fn wanted(left: usize) -> usize
    requires { left ≤ 1000000 }
    ensures { result ≡ asked_of left }
{
    PIECE.min(RECORD * left)
}

// Writes the text of the bytes that came in, which are counted into the one buffer. No contract can say what a read or a write moved:
// out holds what is handed over.
fn write_lines(stdout: Stdout, input: &[u8], got: usize, out: &mut [u8]) -> bool
    requires { (got ≤ length input.now) × (line.LINE * (got / places.RECORD + 1) ≤ length out.old) }
    ensures { Holds out.new (text_of (take got input.now)) }
{
    let n = lines::put_text(&input[..got], out);
    stdout.write_all(&out[..n]).is_ok()
}

// The records that may still be read after a piece: none if its text could not be written or it was short, else its own fewer.
fn left_after(left: usize, want: usize, got: usize, written: bool) -> usize
    requires { got ≤ places.RECORD * left }
    ensures { result ≡ rest_of left want got written }
{
    if !written || got < want {
        0
    } else {
        left - got / RECORD
    }
}

// One piece read and answered.
fn step(streams: Streams, input: &mut [u8], out: &mut [u8], left: usize) -> Piece
    requires { (65536 ≤ length input.old) × (160925 ≤ length out.old) × (0 < left) × (left ≤ 1000000) }
    ensures { Stepped left input.new out.new result }
{
    let want = wanted(left);
    let taken = take_in(streams.stdin, input, want);
    let got = answered(taken);
    if taken.failed {
        let _ = streams
            .stderr
            .write_all(b"planner: standard input could not be read\n");
    }
    let written = write_lines(streams.stdout, input, got, out);
    if !written {
        let _ = streams
            .stderr
            .write_all(b"planner: standard output could not be written\n");
    }
    Piece {
        taken,
        written,
        left: left_after(left, want, got, written),
    }
}

fn main(rt: HostRuntime) {
    let streams = Streams {
        stdin: rt.stdin(),
        stdout: rt.stdout(),
        stderr: rt.stderr(),
    };
    let mut bytes = [0; PIECE];
    let mut text = [0; TEXT];
    let input: &mut [u8] = &mut bytes;
    let out: &mut [u8] = &mut text;
    let mut left = RECORDS;
    // By `while`: how many records a piece has is known when it has come in.
    while left > 0 {
        left = step(streams, input, out, left).left;
    }
}
