// Reads trace events from standard input until it ends, and prints the curve. Document 01, "The curve program".
#![tactic(auto)]

ghost use Rattle.std.specs.Prelude.{◌≡◌, ◌+◌, ◌-◌, ◌≤◌, length, take, drop};
ghost use Rattle.rules.specs.Answers.{number};
ghost use Rattle.rules.specs.Layout.{tables_of, tracker, buckets_of};
ghost use Rattle.text.specs.Text.{refused_line, curve_of};
ghost use Rattle.curve.specs.declared.Stop.TheVariants.{Failed};
ghost use Rattle.curve.specs.Program.{first_settings, came_of, or_refused, last_text, Stands, Ready};
ghost use Rattle.curve.specs.Program.{AfterBytes, AfterRead, OneRead, Tells, TellsOver, Printing};

use rules::{Hashing, Record, Refusal, Settings};
use std::io::{ErrorKind, Read, Stdin, Write};
use std::ops::ControlFlow;
use std::{fmt, io};

// The bytes taken and the reads made are counted together, and at 2^64 - 65,537 the program gives up. After one read at most 65,536
// bytes are taken, so that the sum never overflows.
const MOST_COUNTED: u64 = 0xffff_ffff_fffe_ffff;

// The number of bytes that the buffer holds.
const BUFFER: usize = 65536;

// Why there is no text to print.
#[derive(Clone, Copy)]
enum Stop {
    // A read failed, with this error.
    Failed(io::Error),
    // The input was too long to count.
    Unending,
}

impl From<io::Error> for Stop {
    ghost from_gives = { λ error stop. stop ≡ Failed error };

    fn from(error: io::Error) -> Stop {
        Stop::Failed(error)
    }
}

impl fmt::Display for Stop {
    fn fmt<W: fmt::Write>(&self, f: &mut fmt::Formatter<W>) -> fmt::Result {
        match self {
            Stop::Failed(error) => write!(f, "{error}"),
            Stop::Unending => write!(f, "too long"),
        }
    }
}

// ---- the input, read in pieces

// The state between reads: the record; how many bytes are left over, at the front of the buffer; the place of the first of them in
// the input; and how many reads were made.
#[derive(Clone, Copy)]
struct Pause {
    kept: Record,
    left: usize,
    place: u64,
    reads: u64,
}

// One turn: a pause, with the read that follows it counted. There is room for that read, and to count the bytes that it may bring.
#[derive(Clone, Copy)]
struct Turn {
    pause: Pause,
    ghost ready: { Ready pause },
}

// What follows a read: another read from a pause, or the end, with a text of so many bytes at the front of the buffer.
type Next = ControlFlow<usize, Pause>;

// Moves the bytes from `from` to `end` to the front, and returns how many there are.
fn to_front(buffer: &mut [u8; BUFFER], from: usize, end: usize) -> usize
    requires { (from ≤ end) × (end ≤ 65536) }
    ensures value { result ≡ end - from }
    ensures buffer_after { take result buffer.new ≡ drop from (take end buffer.old) }
{
    let count = end - from;
    buffer.copy_within(from..end, 0);
    count
}

// Writes the line for a refused event, for which there is room, and returns its length.
fn put_refusal(out: &mut [u8; BUFFER], why: Refusal, place: u64) -> usize
    ensures { Stands (refused_line (number why) place) out.new result }
{
    text::put_refused_line(out, why.into(), place).unwrap()
}

// Writes the curve and returns its length; if the curve is refused, the line for that.
fn put_curve_or_refusal(
    out: &mut [u8; BUFFER],
    kept: Record,
    place: u64,
    counts: &[u64; 1026],
    thresholds: &[u32; 1026],
) -> usize
    ensures { Stands (or_refused (curve_of kept (buckets_of counts.now thresholds.now)) place) out.new result }
{
    match text::put_curve(out, kept, counts, thresholds) {
        Ok(count) => count,
        Err(why) => put_refusal(out, why, place),
    }
}

// Writes what is printed at the end of the input. Bytes left over are an incomplete event.
fn put_end(
    out: &mut [u8; BUFFER],
    p: Pause,
    counts: &[u64; 1026],
    thresholds: &[u32; 1026],
) -> usize
    ensures { Stands (last_text p.left p.place p.kept (buckets_of counts.now thresholds.now)) out.new result }
{
    if 0 < p.left {
        return put_refusal(out, Refusal::Short, p.place);
    }
    put_curve_or_refusal(out, p.kept, p.place, counts, thresholds)
}

// Feeds the bytes left over and those that came after them. A refused event ends the program; otherwise the bytes that were not taken are
// kept for the next read.
fn after_bytes(
    turn: Turn,
    count: usize,
    buffer: &mut [u8; BUFFER],
    locations: &mut [u64; 1024],
    counts: &mut [u64; 1026],
    thresholds: &mut [u32; 1026],
) -> Next
    requires { turn.pause.left + count ≤ 65536 }
    ensures { AfterBytes turn.pause (tables_of locations.old counts.old thresholds.old) buffer.old count
        result buffer.new (tables_of locations.new counts.new thresholds.new) }
{
    let p = turn.pause;
    let end = p.left + count;
    let mut kept = p.kept;
    let fed = feed::feed(&mut kept, &buffer[..end], locations, counts, thresholds);
    let place = p.place + fed.taken as u64;
    let reads = p.reads;
    match fed.ending {
        Ok(_) => {
            let left = to_front(buffer, fed.taken, end);
            ControlFlow::Continue(Pause {
                kept,
                left,
                place,
                reads,
            })
        }
        Err(why) => ControlFlow::Break(put_refusal(buffer, why, place)),
    }
}

// Does everything that follows a read: `got` is what it returned. An interrupted one is made again.
fn after_read(
    turn: Turn,
    got: io::Result<usize>,
    buffer: &mut [u8; BUFFER],
    locations: &mut [u64; 1024],
    counts: &mut [u64; 1026],
    thresholds: &mut [u32; 1026],
) -> io::Result<Next>
    ensures { AfterRead turn.pause (tables_of locations.old counts.old thresholds.old) buffer.old
        (came_of got (length buffer.old - turn.pause.left)) result buffer.new (tables_of locations.new counts.new thresholds.new) }
{
    let p = turn.pause;
    match got {
        Ok(0) => Ok(ControlFlow::Break(put_end(buffer, p, counts, thresholds))),
        Ok(count) => Ok(after_bytes(
            turn,
            count.min(BUFFER - p.left),
            buffer,
            locations,
            counts,
            thresholds,
        )),
        Err(error) if error.kind() == ErrorKind::Interrupted => Ok(ControlFlow::Continue(p)),
        Err(error) => Err(error),
    }
}

// Reads once, behind the bytes left over, and does what follows. Which bytes the call of `read` puts there, and what it returns, is not
// proved: this is the only place that depends on it.
fn one_read(
    input: &mut Stdin,
    turn: Turn,
    buffer: &mut [u8; BUFFER],
    locations: &mut [u64; 1024],
    counts: &mut [u64; 1026],
    thresholds: &mut [u32; 1026],
) -> io::Result<Next>
    ensures { OneRead turn.pause (tables_of locations.old counts.old thresholds.old) buffer.old
        result buffer.new (tables_of locations.new counts.new thresholds.new) }
{
    let p = turn.pause;
    let got = input.read(&mut buffer[p.left..]);
    after_read(turn, got, buffer, locations, counts, thresholds)
}

// Reads and feeds the input until there is a result. The promise is over some input: that these are the bytes of standard input is
// not said.
fn follow(
    input: &mut Stdin,
    kept: Record,
    buffer: &mut [u8; BUFFER],
    locations: &mut [u64; 1024],
    counts: &mut [u64; 1026],
    thresholds: &mut [u32; 1026],
) -> Result<usize, Stop>
    ensures { Tells (tracker kept locations.old counts.old thresholds.old) result buffer.new (tables_of locations.new counts.new thresholds.new) }
{
    let mut p = Pause {
        kept,
        left: 0,
        place: 0,
        reads: 0,
    };
    while p.place + p.reads < MOST_COUNTED {
        p.reads += 1;
        match one_read(
            input,
            Turn { pause: p },
            buffer,
            locations,
            counts,
            thresholds,
        )? {
            ControlFlow::Continue(next) => p = next,
            ControlFlow::Break(count) => return Ok(count),
        }
    }
    Err(Stop::Unending)
}

// The settings of the program's own start, each as the rules name it. (A `Default` of Settings would say that zeros are good settings.)
fn first_settings() -> Settings
    ensures { result ≡ first_settings }
{
    Settings {
        limit: 0,
        start: 0,
        width: 0,
        buckets: 0,
        hashing: Hashing { kind: 1 },
    }
}

// Runs the program: the first setup, then the input.
fn run(
    input: &mut Stdin,
    buffer: &mut [u8; BUFFER],
    locations: &mut [u64; 1024],
    counts: &mut [u64; 1026],
    thresholds: &mut [u32; 1026],
) -> Result<usize, Stop>
    ensures { TellsOver (tables_of locations.old counts.old thresholds.old) result buffer.new (tables_of locations.new counts.new thresholds.new) }
{
    match setup::setup(first_settings(), locations, counts, thresholds) {
        Ok(kept) => follow(input, kept, buffer, locations, counts, thresholds),
        Err(why) => Ok(put_refusal(buffer, why, 0)),
    }
}

// Prints the text at the front of the buffer, or says on standard error why there is none.
fn tell(rt: HostRuntime, done: Result<usize, Stop>, buffer: &[u8]) -> io::Result<()>
    requires { Printing done buffer.now }
{
    match done {
        Ok(count) => {
            if let Err(error) = rt.stdout().write_all(&buffer[..count]) {
                eprintln!(rt; "curve: standard output: {error}")?;
            }
        }
        Err(stop) => eprintln!(rt; "curve: standard input: {stop}")?,
    }
    Ok(())
}

fn main(rt: HostRuntime) -> io::Result<()> {
    // Three arrays, not one struct: the compiler does not know the fields of a struct to be apart here, and a fresh start with many buckets
    // would take twice the time.
    let mut locations = [0; 1024];
    let mut counts = [0; 1026];
    let mut thresholds = [0; 1026];
    let mut buffer = [0; BUFFER];
    let done = run(
        &mut rt.stdin(),
        &mut buffer,
        &mut locations,
        &mut counts,
        &mut thresholds,
    );
    tell(rt, done, &buffer)
}
