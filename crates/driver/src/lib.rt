// The C interface; include/rockgingham.h documents it for C programmers. Every function accepts any values. Every call but the hash and the
// version returns a refusal, 0 if it was accepted, alone or as the first field of what it gives. A refused call stores nothing, except that
// feed keeps what the events before the refused one did, and of a refused span, here or as an event, the references accepted before the
// refused one stay counted.
#![tactic(auto)]

ghost use Rattle.std.specs.Prelude.{◌≡◌};
ghost use Rattle.rules.specs.Layout.{buckets_of, tables_of};
ghost use Rattle.rules.specs.Answers.{number, refused};
ghost use Rattle.words.specs.Words.{settings_from, shape_from, fed_words, returned};
ghost use Rattle.driver.specs.Calls.{version, held, setup_body_from, few_for_setup};
ghost use Rattle.rules.specs.Events.{Fits};
ghost use Rattle.driver.specs.Calls.{hash_in, setup_in, restart_in, refer_in, span_in, point_in, plot_in, apply_in, fed_from, feed_in, read_in, write_in};

use feed::Fed;
use rules::{Event, Hashing, Refusal, Reply, Settings, SetupBody, Shape};
use words::{
    AnswerWords, AppliedWords, AskedSettings, Believed, EventWords, FedWords, PlotWords,
    PointWords, WrittenWords, record_of, store_if, store_started, too_few,
};

// The version of this interface. It is part of the exported names of setup, apply and feed: the calls that can set a tracker up.
const VERSION: u64 = 2;

#[unsafe(no_mangle)]
pub extern "C" fn rockgingham_version() -> u64
    ensures { result ≡ version }
{
    VERSION
}

// The hash of a location: for kind 0 the location modulo 2^24, for any other kind its finaliser modulo 2^24.
#[unsafe(no_mangle)]
pub extern "C" fn rockgingham_hash(kind: u64, location: u64) -> u64
    ensures { result ≡ hash_in kind location }
{
    hash::hash_of(Hashing { kind }, location)
}

// ---- starts and references

// Why a setup is refused whose record has too few words: 1 comes before 2.
fn few_for_setup(settings: Settings) -> Refusal
    ensures { number result ≡ few_for_setup settings }
{
    if judge::out_of_range(setup::with_defaults(settings)) {
        return Refusal::Settings;
    }
    Refusal::Tables
}

// A fresh start with these settings.
#[unsafe(no_mangle)]
pub extern "C" fn rockgingham_setup_v2(
    words: &mut [u64],
    asked: AskedSettings,
    locations: &[u64],
    counts: &mut [u64],
    thresholds: &mut [u32],
) -> u64
    ensures { returned result (held words.new (tables_of locations.now counts.new thresholds.new))
        ≡ setup_in (settings_from asked) (held words.old (tables_of locations.now counts.old thresholds.old)) }
{
    let settings = Settings::from(asked);
    if too_few(words) {
        return few_for_setup(settings).into();
    }
    let started = setup::setup(settings, locations, counts, thresholds);
    store_started(words, started)
}

// A fresh start with the record's own settings.
#[unsafe(no_mangle)]
pub extern "C" fn rockgingham_restart(
    words: &mut [u64],
    locations: &[u64],
    counts: &mut [u64],
    thresholds: &mut [u32],
) -> u64
    ensures { returned result (held words.new (tables_of locations.now counts.new thresholds.new))
        ≡ restart_in (held words.old (tables_of locations.now counts.old thresholds.old)) }
{
    if too_few(words) {
        return Refusal::Tables.into();
    }
    let started = setup::restart(record_of(words), locations, counts, thresholds);
    store_started(words, started)
}

// One reference. The answer: 0 Skipped, 1 Again with the distance, 2 First.
#[unsafe(no_mangle)]
pub extern "C" fn rockgingham_refer(
    words: &mut [u64],
    location: u64,
    locations: &mut [u64],
    counts: &mut [u64],
    thresholds: &mut [u32],
) -> AnswerWords
    ensures { returned result (held words.new (tables_of locations.new counts.new thresholds.new))
        ≡ refer_in location (held words.old (tables_of locations.old counts.old thresholds.old)) }
{
    if too_few(words) {
        return AnswerWords::from(Err(Refusal::Tables));
    }
    let kept = record_of(words);
    if let Some(after) = refer::skip(kept, location, locations, counts, thresholds) {
        store_if(words, true, after);
        return AnswerWords::from(Ok(Reply::Skipped));
    }
    let mut after = kept;
    let answer = refer::refer(&mut after, location, locations, counts, thresholds);
    store_if(words, answer.is_ok(), after);
    answer.into()
}

// Feeds the bytes, and stores the record if an event was taken or a reference of the refused one was accepted. Each call that applies an
// event comes here: `feed`, and `apply` in its loop, are compiled once, with the record in registers as long as references are Skipped.
fn feed_stored(
    words: &mut [u64],
    bytes: &[u8],
    locations: &mut [u64],
    counts: &mut [u64],
    thresholds: &mut [u32],
) -> FedWords
    ensures { returned result (held words.new (tables_of locations.new counts.new thresholds.new))
        ≡ fed_from bytes.now (held words.old (tables_of locations.old counts.old thresholds.old)) }
{
    let before = record_of(words);
    let mut kept = before;
    let fed = feed::feed(&mut kept, bytes, locations, counts, thresholds);
    let counted = kept.numbers.references != before.numbers.references;
    store_if(words, (fed.taken != 0) | counted, kept);
    fed.into()
}

// One I/O: a reference to each block that holds one of its bytes, as in its event, which is fed.
#[unsafe(no_mangle)]
pub extern "C" fn rockgingham_refer_span(
    words: &mut [u64],
    offset: u64,
    length: u32,
    locations: &mut [u64],
    counts: &mut [u64],
    thresholds: &mut [u32],
) -> u64
    ensures { returned result (held words.new (tables_of locations.new counts.new thresholds.new))
        ≡ span_in offset length (held words.old (tables_of locations.old counts.old thresholds.old)) }
{
    if judge::overruns(offset, length) {
        return Refusal::Overrun.into();
    }
    if too_few(words) {
        return Refusal::Tables.into();
    }
    let mut event: [u8; 13] = [0; 13];
    let _ = writing::write(Event::Span { offset, length }, &mut event);
    feed_stored(words, &event, locations, counts, thresholds).refusal
}

// ---- points

// A point: its size, hits, misses and total.
#[unsafe(no_mangle)]
pub extern "C" fn rockgingham_point(
    words: &[u64],
    believed: Believed,
    number: u64,
    counts: &[u64],
    thresholds: &[u32],
) -> PointWords
    ensures { result ≡ point_in words.now (shape_from believed) number (buckets_of counts.now thresholds.now) }
{
    if too_few(words) {
        return PointWords::from(Err(Refusal::Tables));
    }
    let shape = Shape::from(believed);
    points::point(record_of(words), shape, number, counts, thresholds).into()
}

// The same point as a pair of doubles: the size, and misses divided by total. Line for line like the point, since an exported function cannot
// be generic.
#[unsafe(no_mangle)]
pub extern "C" fn rockgingham_plot(
    words: &[u64],
    believed: Believed,
    number: u64,
    counts: &[u64],
    thresholds: &[u32],
) -> PlotWords
    ensures { result ≡ plot_in words.now (shape_from believed) number (buckets_of counts.now thresholds.now) }
{
    if too_few(words) {
        return PlotWords::from(Err(Refusal::Tables));
    }
    let shape = Shape::from(believed);
    points::plot_point(record_of(words), shape, number, counts, thresholds).into()
}

// ---- trace events

// A refusal before any byte was taken.
fn refused_untaken(why: Refusal) -> FedWords
    ensures { result ≡ fed_words 0 (refused (number why)) }
{
    let fed = Fed {
        taken: 0,
        ending: Err(why),
    };
    fed.into()
}

// Applies the first event of the bytes.
#[unsafe(no_mangle)]
pub extern "C" fn rockgingham_apply_v2(
    words: &mut [u64],
    bytes: &[u8],
    locations: &mut [u64],
    counts: &mut [u64],
    thresholds: &mut [u32],
) -> AppliedWords
    ensures { returned result (held words.new (tables_of locations.new counts.new thresholds.new))
        ≡ apply_in bytes.now (held words.old (tables_of locations.old counts.old thresholds.old)) }
{
    if too_few(words) {
        return refused_untaken(Refusal::Tables).into();
    }
    match reading::read(bytes) {
        Ok(got) => feed_stored(words, &bytes[..got.taken], locations, counts, thresholds).into(),
        Err(why) => refused_untaken(why).into(),
    }
}

// Applies event after event, until the bytes end, end inside an event, or an event is refused.
#[unsafe(no_mangle)]
pub extern "C" fn rockgingham_feed_v2(
    words: &mut [u64],
    bytes: &[u8],
    locations: &mut [u64],
    counts: &mut [u64],
    thresholds: &mut [u32],
) -> FedWords
    ensures { returned result (held words.new (tables_of locations.new counts.new thresholds.new))
        ≡ feed_in bytes.now (held words.old (tables_of locations.old counts.old thresholds.old)) }
{
    if too_few(words) {
        return refused_untaken(Refusal::Tables);
    }
    feed_stored(words, bytes, locations, counts, thresholds)
}

// The first event of the bytes: its kind, how many bytes it took, and its numbers.
#[unsafe(no_mangle)]
pub extern "C" fn rockgingham_read(bytes: &[u8]) -> EventWords
    ensures { result ≡ read_in bytes.now }
{
    reading::read(bytes).into()
}

// Each kind of event has its own function for writing, whose parameters can hold only what the event can.
#[unsafe(no_mangle)]
pub extern "C" fn rockgingham_write_location(location: u64, buffer: &mut [u8]) -> WrittenWords
    ensures buffer_after { returned result buffer.new ≡ write_in (Event.Location location) buffer.old }
    ensures fits { Fits (Event.Location location) }
{
    writing::write(Event::Location(location), buffer).into()
}

#[unsafe(no_mangle)]
pub extern "C" fn rockgingham_write_span(
    offset: u64,
    length: u32,
    buffer: &mut [u8],
) -> WrittenWords
    ensures buffer_after { returned result buffer.new ≡ write_in (Event.Span offset length) buffer.old }
    ensures fits { Fits (Event.Span offset length) }
{
    writing::write(Event::Span { offset, length }, buffer).into()
}

#[unsafe(no_mangle)]
pub extern "C" fn rockgingham_write_restart(buffer: &mut [u8]) -> WrittenWords
    ensures buffer_after { returned result buffer.new ≡ write_in Event.Restart buffer.old }
    ensures fits { Fits Event.Restart }
{
    writing::write(Event::Restart, buffer).into()
}

#[unsafe(no_mangle)]
pub extern "C" fn rockgingham_write_setup(
    limit: u32,
    start: u32,
    width: u32,
    buckets: u32,
    kind: u8,
    buffer: &mut [u8],
) -> WrittenWords
    ensures buffer_after { returned result buffer.new
        ≡ write_in (Event.Setup (setup_body_from limit start width buckets kind)) buffer.old }
    ensures fits { Fits (Event.Setup (setup_body_from limit start width buckets kind)) }
{
    let body = SetupBody {
        limit,
        start,
        width,
        buckets,
        kind,
    };
    writing::write(Event::Setup(body), buffer).into()
}
