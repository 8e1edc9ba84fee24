// The record, the settings and the answers of calls in the forms in which they cross to C: words of 64 bits, lent or in structs. A struct
// that a call gives has the refusal first, 0 if the call was accepted; if it is not 0, all other fields are 0, except those of FedWords.
// Refusals, replies and the kinds of events are numbers here, since no enum crosses to C.
#![tactic(auto)]

ghost use Rattle.std.specs.Prelude.{◌≡◌, get_or};
ghost use Rattle.rules.specs.Answers.{result_of};
ghost use Rattle.words.specs.Words.{settings_from, shape_from, few_words, record_of, words_of, put, stored_if, stored_start};
ghost use Rattle.words.specs.Words.{answer_words, point_words, plot_words, no_settings, asked_by, got_words, event_words};
ghost use Rattle.words.specs.Words.{written_words, fed_words, applied_from, returned};

use feed::{End, Fed};
use rules::{
    Event, Got, Hashing, Kind, Numbers, PlotPoint, Point, Record, Refusal, Reply, Settings,
    SetupBody, Shape,
};

// How many words a record has.
pub const RECORD_WORDS: usize = 9;

// What stands in a refusal's place if a call was accepted.
const ACCEPTED: u64 = 0;

// ---- what C passes

// The settings asked for. A zero stands for the default, except for the hash kind.
#[repr(C)]
#[derive(Clone, Copy, Default)]
pub struct AskedSettings {
    pub limit: u64,
    pub start: u64,
    pub width: u64,
    pub buckets: u64,
    pub kind: u64,
}

// The shape that the caller believes the curve to have.
#[repr(C)]
#[derive(Clone, Copy)]
pub struct Believed {
    pub buckets: u64,
    pub width: u64,
}

impl From<AskedSettings> for Settings {
    ghost from_gives = { λ asked settings. settings ≡ settings_from asked };

    fn from(asked: AskedSettings) -> Settings {
        Settings {
            limit: asked.limit,
            start: asked.start,
            width: asked.width,
            buckets: asked.buckets,
            hashing: Hashing { kind: asked.kind },
        }
    }
}

impl From<Believed> for Shape {
    ghost from_gives = { λ believed shape. shape ≡ shape_from believed };

    fn from(believed: Believed) -> Shape {
        Shape {
            buckets: believed.buckets,
            width: believed.width,
        }
    }
}

// ---- the record

// Whether these are too few words for a record.
pub fn too_few(words: &[u64]) -> bool
    ensures { result ≡ few_words words.now }
{
    words.len() < RECORD_WORDS
}

// The word at a place, 0 beyond the end.
fn word(words: &[u64], place: usize) -> u64
    ensures { result ≡ get_or words.now place 0 }
{
    words.get(place).copied().unwrap_or(0)
}

// The record that the words stand for, missing words being 0. Only this function and words_of know the order of the words. (Neither is a
// From: the record and the words belong to other crates.)
pub fn record_of(words: &[u64]) -> Record
    ensures { result ≡ record_of words.now }
{
    Record {
        settings: Settings {
            limit: word(words, 0),
            start: word(words, 1),
            width: word(words, 2),
            buckets: word(words, 3),
            hashing: Hashing {
                kind: word(words, 4),
            },
        },
        threshold: word(words, 5),
        live: word(words, 6),
        numbers: Numbers {
            references: word(words, 7),
            sampled: word(words, 8),
        },
    }
}

// The words of a record.
fn words_of(kept: Record) -> [u64; 9]
    ensures { result ≡ words_of kept }
{
    let s = kept.settings;
    let n = kept.numbers;
    [
        s.limit,
        s.start,
        s.width,
        s.buckets,
        s.hashing.kind,
        kept.threshold,
        kept.live,
        n.references,
        n.sampled,
    ]
}

// Writes a record over the front of the words, or nothing if they are too few.
fn put(words: &mut [u64], kept: Record)
    ensures { words.new ≡ put kept words.old }
{
    let new = words_of(kept);
    if too_few(words) {
        return;
    }
    // By index: after `iter_mut` nothing is known of the words, and `copy_from_slice` takes forty instructions more for nine of them.
    for i in 0..RECORD_WORDS {
        words[i] = new[i];
    }
}

// Stores the record that a call leaves, if it is said to have changed; otherwise nothing. The choice is here, since what is known of the
// words would be lost where an `if` joins before the next call. An Option would be made of the two at each call, and be no plainer.
pub fn store_if(words: &mut [u64], changed: bool, kept: Record)
    ensures { words.new ≡ stored_if changed kept words.old }
{
    if changed {
        put(words, kept);
    }
}

// Stores the record of a fresh start, and returns 0 or the refusal's number.
pub fn store_started(words: &mut [u64], answer: Result<Record, Refusal>) -> u64
    ensures { returned result words.new ≡ stored_start (result_of answer) words.old }
{
    match answer {
        Ok(kept) => {
            put(words, kept);
            ACCEPTED
        }
        Err(why) => why.into(),
    }
}

// ---- what a call gives

// A reference: 0 Skipped, 1 Again with the distance, 2 First.
#[repr(C)]
#[derive(Clone, Copy, Default)]
pub struct AnswerWords {
    pub refusal: u64,
    pub reply: u64,
    pub distance: u64,
}

// A point of the curve.
#[repr(C)]
#[derive(Clone, Copy, Default)]
pub struct PointWords {
    pub refusal: u64,
    pub size: u64,
    pub hits: u64,
    pub misses: u64,
    pub total: u64,
}

// The same point as a pair of doubles: the size, and misses divided by total.
#[repr(C)]
#[derive(Clone, Copy, Default)]
pub struct PlotWords {
    pub refusal: u64,
    pub size: f64,
    pub ratio: f64,
}

// An event: its kind, how many bytes it took, and its numbers; those that its kind does not have are 0.
#[repr(C)]
#[derive(Clone, Copy, Default)]
pub struct EventWords {
    pub refusal: u64,
    pub kind: u64,
    pub taken: u64,
    pub location: u64,
    pub offset: u64,
    pub length: u64,
    pub settings: AskedSettings,
}

// An event that was applied: how many bytes it took.
#[repr(C)]
#[derive(Clone, Copy, Default)]
pub struct AppliedWords {
    pub refusal: u64,
    pub taken: u64,
}

// An event that was written: how many bytes it has. It is not AppliedWords, since the header has two structs.
#[repr(C)]
#[derive(Clone, Copy, Default)]
pub struct WrittenWords {
    pub refusal: u64,
    pub length: u64,
}

// A piece of a trace: how many bytes were taken, and whether the bytes after them are the beginning of an event.
#[repr(C)]
#[derive(Clone, Copy, Default)]
pub struct FedWords {
    pub refusal: u64,
    pub taken: u64,
    pub incomplete: u64,
}

impl From<Result<Reply, Refusal>> for AnswerWords {
    ghost from_gives = { λ answer words. words ≡ answer_words (result_of answer) };

    fn from(answer: Result<Reply, Refusal>) -> AnswerWords {
        match answer {
            Ok(Reply::Skipped) => AnswerWords {
                refusal: ACCEPTED,
                reply: 0,
                distance: 0,
            },
            Ok(Reply::Again(place)) => AnswerWords {
                refusal: ACCEPTED,
                reply: 1,
                distance: place,
            },
            Ok(Reply::First) => AnswerWords {
                refusal: ACCEPTED,
                reply: 2,
                distance: 0,
            },
            Err(why) => AnswerWords {
                refusal: why.into(),
                ..AnswerWords::default()
            },
        }
    }
}

impl From<Result<Point, Refusal>> for PointWords {
    ghost from_gives = { λ answer words. words ≡ point_words (result_of answer) };

    fn from(answer: Result<Point, Refusal>) -> PointWords {
        match answer {
            Ok(p) => PointWords {
                refusal: ACCEPTED,
                size: p.size,
                hits: p.hits,
                misses: p.misses,
                total: p.total,
            },
            Err(why) => PointWords {
                refusal: why.into(),
                ..PointWords::default()
            },
        }
    }
}

impl From<Result<PlotPoint, Refusal>> for PlotWords {
    ghost from_gives = { λ answer words. words ≡ plot_words (result_of answer) };

    fn from(answer: Result<PlotPoint, Refusal>) -> PlotWords {
        match answer {
            Ok(p) => PlotWords {
                refusal: ACCEPTED,
                size: p.size,
                ratio: p.ratio,
            },
            Err(why) => PlotWords {
                refusal: why.into(),
                ..PlotWords::default()
            },
        }
    }
}

// The settings that a setup event asks for.
impl From<SetupBody> for AskedSettings {
    ghost from_gives = { λ body asked. asked ≡ asked_by body };

    fn from(body: SetupBody) -> AskedSettings {
        AskedSettings {
            limit: body.limit.into(),
            start: body.start.into(),
            width: body.width.into(),
            buckets: body.buckets.into(),
            kind: body.kind.into(),
        }
    }
}

// An event that was read.
impl From<Got> for EventWords {
    ghost from_gives = { λ got words. words ≡ got_words got.event got.taken };

    fn from(got: Got) -> EventWords {
        let taken = got.taken as u64;
        match got.event {
            Event::Location(location) => EventWords {
                refusal: ACCEPTED,
                kind: Kind::Location as u64,
                taken,
                location,
                ..EventWords::default()
            },
            Event::Span { offset, length } => EventWords {
                refusal: ACCEPTED,
                kind: Kind::Span as u64,
                taken,
                offset,
                length: length.into(),
                ..EventWords::default()
            },
            Event::Restart => EventWords {
                refusal: ACCEPTED,
                kind: Kind::Restart as u64,
                taken,
                ..EventWords::default()
            },
            Event::Setup(body) => EventWords {
                refusal: ACCEPTED,
                kind: Kind::Setup as u64,
                taken,
                settings: body.into(),
                ..EventWords::default()
            },
        }
    }
}

impl From<Result<Got, Refusal>> for EventWords {
    ghost from_gives = { λ answer words. words ≡ event_words (result_of answer) };

    fn from(answer: Result<Got, Refusal>) -> EventWords {
        match answer {
            Ok(got) => got.into(),
            Err(why) => EventWords {
                refusal: why.into(),
                ..EventWords::default()
            },
        }
    }
}

impl From<Result<usize, Refusal>> for WrittenWords {
    ghost from_gives = { λ answer words. words ≡ written_words (result_of answer) };

    fn from(answer: Result<usize, Refusal>) -> WrittenWords {
        match answer {
            Ok(length) => WrittenWords {
                refusal: ACCEPTED,
                length: length as u64,
            },
            Err(why) => WrittenWords {
                refusal: why.into(),
                ..WrittenWords::default()
            },
        }
    }
}

// The bytes taken stand beside a refusal too.
impl From<Fed> for FedWords {
    ghost from_gives = { λ fed words. words ≡ fed_words fed.taken (result_of fed.ending) };

    fn from(fed: Fed) -> FedWords {
        let taken = fed.taken as u64;
        match fed.ending {
            Ok(End::Whole) => FedWords {
                refusal: ACCEPTED,
                taken,
                incomplete: 0,
            },
            Ok(End::Inside) => FedWords {
                refusal: ACCEPTED,
                taken,
                incomplete: 1,
            },
            Err(why) => FedWords {
                refusal: why.into(),
                taken,
                incomplete: 0,
            },
        }
    }
}

// An event that was fed alone, as one that was applied.
impl From<FedWords> for AppliedWords {
    ghost from_gives = { λ fed words. words ≡ applied_from fed };

    fn from(fed: FedWords) -> AppliedWords {
        AppliedWords {
            refusal: fed.refusal,
            taken: fed.taken,
        }
    }
}
