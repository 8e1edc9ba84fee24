// Trace events, read from bytes. Document 01, "Trace events".
#![tactic(auto)]

ghost use Rattle.std.specs.Prelude.{◌≡◌, ◌≤◌, length, drop};
ghost use Rattle.rules.specs.Answers.{result_of};
ghost use Rattle.rules.specs.Events.{number_at, setup_body_of, if_all_there, read_of, unread_of};
ghost use Rattle.rules.specs.Layout.{part, tail_of};

use rules::{
    Event, Got, Kind, LOCATION_BYTES, RESTART_BYTES, Refusal, SETUP_BYTES, SPAN_BYTES, SetupBody,
};

fn read_location(bytes: &[u8]) -> Result<Got, Refusal>
    ensures { result_of result ≡ if_all_there 9 (Event.Location (number_at 8 1 bytes.now)) bytes.now }
{
    if bytes.len() < LOCATION_BYTES {
        return Err(Refusal::Short);
    }
    Ok(Got {
        event: Event::Location(little_endian::get::<8>(bytes, 1)),
        taken: LOCATION_BYTES,
    })
}

fn read_span(bytes: &[u8]) -> Result<Got, Refusal>
    ensures { result_of result ≡ if_all_there 13 (Event.Span (number_at 8 1 bytes.now) (number_at 4 9 bytes.now)) bytes.now }
{
    if bytes.len() < SPAN_BYTES {
        return Err(Refusal::Short);
    }
    let offset = little_endian::get::<8>(bytes, 1);
    let length = little_endian::get::<4>(bytes, 9) as u32;
    if judge::overruns(offset, length) {
        return Err(Refusal::Overrun);
    }
    Ok(Got {
        event: Event::Span { offset, length },
        taken: SPAN_BYTES,
    })
}

fn read_setup(bytes: &[u8]) -> Result<Got, Refusal>
    ensures { result_of result ≡ if_all_there 18 (Event.Setup (setup_body_of bytes.now)) bytes.now }
{
    if bytes.len() < SETUP_BYTES {
        return Err(Refusal::Short);
    }
    let body = SetupBody {
        limit: little_endian::get::<4>(bytes, 1) as u32,
        start: little_endian::get::<4>(bytes, 5) as u32,
        width: little_endian::get::<4>(bytes, 9) as u32,
        buckets: little_endian::get::<4>(bytes, 13) as u32,
        kind: little_endian::get::<1>(bytes, 17) as u8,
    };
    Ok(Got {
        event: Event::Setup(body),
        taken: SETUP_BYTES,
    })
}

// The first event of the bytes, beside the number of bytes that it took.
pub fn read(bytes: &[u8]) -> Result<Got, Refusal>
    ensures { result_of result ≡ read_of bytes.now }
{
    let first = bytes.first().ok_or(Refusal::Short)?;
    match Kind::try_from(*first)? {
        Kind::Location => read_location(bytes),
        Kind::Span => read_span(bytes),
        Kind::Restart => Ok(Got {
            event: Event::Restart,
            taken: RESTART_BYTES,
        }),
        Kind::Setup => read_setup(bytes),
    }
}

// What follows the first event, or all of the bytes if that event is refused, as a slice of the caller's own bytes.
pub fn unread(bytes: &[u8]) -> &[u8]
    ensures { part result ≡ tail_of bytes.entry (unread_of bytes.now) }
{
    match read(bytes) {
        Ok(got) => &bytes[got.taken..],
        Err(_) => bytes,
    }
}
