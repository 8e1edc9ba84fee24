// The types that the crates share: settings, the record, the answers, the trace events; and the numbers of document 01. The only functions
// here turn one of these into another form: a refusal or a kind of event into its number, a byte into a kind, a body into settings, settings into the curve's shape.
#![tactic(auto)]

ghost use Rattle.std.specs.Prelude.{◌≡◌};
ghost use Rattle.rules.specs.Answers.{number, result_of};
ghost use Rattle.rules.specs.Events.{settings_of};
ghost use Rattle.rules.specs.Conditions.{shape_of};
ghost use Rattle.rules.specs.Kinds.{kind_number, kind_of};

// P, full rate: every hash is below it, so a threshold of P samples every location.
pub const FULL_RATE: u64 = 0x100_0000;

// One reference, in the units of the counts.
pub const ONE_REFERENCE: u64 = 256;

// The largest number of references in a run.
pub const MOST_REFERENCES: u64 = 0xffff_ffff;

// The largest allowed settings. T0 is at most FULL_RATE, the hash kind at most MOST_KIND.
pub const MOST_LIMIT: u64 = 8192;

pub const MOST_WIDTH: u64 = 0xffff_ffff;

pub const MOST_BUCKETS: u64 = 10000;

pub const MOST_KIND: u64 = 1;

// The defaults, which settings of zero stand for.
pub const DEFAULT_LIMIT: u64 = 1024;

pub const DEFAULT_START: u64 = 1677721;

pub const DEFAULT_WIDTH: u64 = 1;

pub const DEFAULT_BUCKETS: u64 = 256;

// The size of a block in bytes.
pub const BLOCK_BYTES: u64 = 4096;

// The length of an event in bytes, by its kind.
pub const LOCATION_BYTES: usize = 9;

pub const SPAN_BYTES: usize = 13;

pub const RESTART_BYTES: usize = 1;

pub const SETUP_BYTES: usize = 18;

// The hash that is used for locations. Its kind is a number, since C hands over any, and a setup refuses those above MOST_KIND.
#[derive(Clone, Copy)]
pub struct Hashing {
    pub kind: u64,
}

// The settings: sample limit S, starting threshold T0, bucket width W in blocks, buckets B, and the hash.
#[derive(Clone, Copy)]
pub struct Settings {
    pub limit: u64,
    pub start: u64,
    pub width: u64,
    pub buckets: u64,
    pub hashing: Hashing,
}

// The number of references since the last fresh start, and how many of them were sampled.
#[derive(Clone, Copy)]
pub struct Numbers {
    pub references: u64,
    pub sampled: u64,
}

// The record: what a tracker holds besides its tables. Its settings are those after defaults.
#[derive(Clone, Copy)]
pub struct Record {
    pub settings: Settings,
    pub threshold: u64,
    pub live: u64,
    pub numbers: Numbers,
}

// The shape that a caller believes the curve to have.
#[derive(Clone, Copy, PartialEq, Eq)]
pub struct Shape {
    pub buckets: u64,
    pub width: u64,
}

impl From<Settings> for Shape {
    ghost from_gives = { λ settings shape. shape ≡ shape_of settings };

    fn from(settings: Settings) -> Shape {
        Shape {
            buckets: settings.buckets,
            width: settings.width,
        }
    }
}

// The refusals, each with its number.
#[derive(Clone, Copy, PartialEq, Eq)]
pub enum Refusal {
    // A setting is outside its range.
    Settings = 1,
    // A lent table, or a buffer for an event, is too short.
    Tables = 2,
    // The record or a bucket holds values that no run leaves there.
    Torn = 3,
    // No more references can be counted.
    Full = 4,
    // The curve does not have the shape that the caller believes.
    Stale = 5,
    // There is no point with that number.
    Point = 6,
    // The bytes end before the event does.
    Short = 7,
    // No event has that kind.
    Kind = 8,
    // There is nothing to report.
    Empty = 9,
    // A span passes the last byte, 2^64 - 1.
    Overrun = 10,
}

impl From<Refusal> for u64 {
    ghost from_gives = { λ why n. n ≡ number why };

    fn from(why: Refusal) -> u64 {
        why as u64
    }
}

// What a reference is answered.
#[derive(Clone, Copy)]
pub enum Reply {
    // The location is not sampled.
    Skipped,
    // It was in the live list, at this place, counted from 0, which is its distance.
    Again(u64),
    // It is sampled, and was not in the live list.
    First,
}

// A point of the curve: its size in blocks, and hits, misses and total in units of 1/256 reference.
#[derive(Clone, Copy)]
pub struct Point {
    pub size: u64,
    pub hits: u64,
    pub misses: u64,
    pub total: u64,
}

// A point as the desk plotter expects it: the size, and misses divided by total.
#[derive(Clone, Copy)]
pub struct PlotPoint {
    pub size: f64,
    pub ratio: f64,
}

// The body of a kind 4 event, exactly as in its bytes: zeros are not replaced by defaults.
#[derive(Clone, Copy)]
pub struct SetupBody {
    pub limit: u32,
    pub start: u32,
    pub width: u32,
    pub buckets: u32,
    pub kind: u8,
}

impl From<SetupBody> for Settings {
    ghost from_gives = { λ body settings. settings ≡ settings_of body };

    fn from(body: SetupBody) -> Settings {
        Settings {
            limit: body.limit.into(),
            start: body.start.into(),
            width: body.width.into(),
            buckets: body.buckets.into(),
            hashing: Hashing {
                kind: body.kind.into(),
            },
        }
    }
}

// The kinds of trace events, each with the number that its first byte is.
#[derive(Clone, Copy, PartialEq, Eq)]
pub enum Kind {
    Location = 1,
    Span = 2,
    Restart = 3,
    Setup = 4,
}

impl TryFrom<u8> for Kind {
    type Error = Refusal;

    ghost try_from_gives = { λ byte read. result_of read ≡ kind_of byte };

    fn try_from(byte: u8) -> Result<Kind, Refusal> {
        match byte {
            1 => Ok(Kind::Location),
            2 => Ok(Kind::Span),
            3 => Ok(Kind::Restart),
            4 => Ok(Kind::Setup),
            _ => Err(Refusal::Kind),
        }
    }
}

impl From<Kind> for u8 {
    ghost from_gives = { λ kind n. n ≡ kind_number kind };

    fn from(kind: Kind) -> u8 {
        kind as u8
    }
}

// The trace events, kinds 1 to 4.
#[derive(Clone, Copy)]
pub enum Event {
    // One reference to a location.
    Location(u64),
    // An I/O: one reference to each block that holds one of its bytes.
    Span { offset: u64, length: u32 },
    // A fresh start with the same settings.
    Restart,
    // A fresh start with these settings.
    Setup(SetupBody),
}

// An event that was read, beside the number of bytes it took: what reading answers, where it does not refuse.
#[derive(Clone, Copy)]
pub struct Got {
    pub event: Event,
    pub taken: usize,
}
