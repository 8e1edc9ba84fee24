// Trace events, written to bytes. Document 01, "Trace events".
#![tactic(auto)]

ghost use Rattle.std.specs.Prelude.{◌≡◌, ◌≤◌, length};
ghost use Rattle.std.proofs.lemmas.List.Edits.{sets};
ghost use Rattle.rules.specs.Answers.{result_of};
ghost use Rattle.rules.specs.Order.{outcome};
ghost use Rattle.rules.specs.Events.{event_bytes, event_length, overruns, write_of, Fits};

use rules::{
    Event, Kind, LOCATION_BYTES, RESTART_BYTES, Refusal, SETUP_BYTES, SPAN_BYTES, SetupBody,
};

fn put_location(buffer: &mut [u8], location: u64)
    requires { 9 ≤ length buffer.old }
    ensures { buffer.new ≡ sets buffer.old 0 (event_bytes (Event.Location location)) }
{
    buffer[0] = u8::from(Kind::Location);
    little_endian::put::<8>(buffer, 1, location);
}

fn put_span(buffer: &mut [u8], offset: u64, bytes: u32)
    requires { 13 ≤ length buffer.old }
    ensures { buffer.new ≡ sets buffer.old 0 (event_bytes (Event.Span offset bytes)) }
{
    buffer[0] = u8::from(Kind::Span);
    little_endian::put::<8>(buffer, 1, offset);
    little_endian::put::<4>(buffer, 9, u64::from(bytes));
}

fn put_restart(buffer: &mut [u8])
    requires { 1 ≤ length buffer.old }
    ensures { buffer.new ≡ sets buffer.old 0 (event_bytes Event.Restart) }
{
    buffer[0] = u8::from(Kind::Restart);
}

fn put_setup(buffer: &mut [u8], body: SetupBody)
    requires { 18 ≤ length buffer.old }
    ensures { buffer.new ≡ sets buffer.old 0 (event_bytes (Event.Setup body)) }
{
    buffer[0] = u8::from(Kind::Setup);
    little_endian::put::<4>(buffer, 1, u64::from(body.limit));
    little_endian::put::<4>(buffer, 5, u64::from(body.start));
    little_endian::put::<4>(buffer, 9, u64::from(body.width));
    little_endian::put::<4>(buffer, 13, u64::from(body.buckets));
    little_endian::put::<1>(buffer, 17, u64::from(body.kind));
}

fn put(buffer: &mut [u8], event: Event)
    requires { event_length event ≤ length buffer.old }
    ensures { buffer.new ≡ sets buffer.old 0 (event_bytes event) }
{
    match event {
        Event::Location(location) => put_location(buffer, location),
        Event::Span { offset, length } => put_span(buffer, offset, length),
        Event::Restart => put_restart(buffer),
        Event::Setup(body) => put_setup(buffer, body),
    }
}

// How many bytes an event takes.
fn size(event: Event) -> usize
    ensures { result ≡ event_length event }
{
    match event {
        Event::Location(_) => LOCATION_BYTES,
        Event::Span { .. } => SPAN_BYTES,
        Event::Restart => RESTART_BYTES,
        Event::Setup(_) => SETUP_BYTES,
    }
}

// Whether the event is a span that overruns.
fn overruns(event: Event) -> bool
    ensures { result ≡ overruns event }
{
    match event {
        Event::Span { offset, length } => judge::overruns(offset, length),
        _ => false,
    }
}

// Writes the event to the front of the buffer, filling exactly its length, and returns that length. The event's numbers fit their types,
// as those of any event do; the promise says so, so that what is written is known to be read back.
pub fn write(event: Event, buffer: &mut [u8]) -> Result<usize, Refusal>
    ensures buffer_after { outcome (result_of result) buffer.new ≡ write_of event buffer.old }
    ensures fits { Fits event }
{
    if overruns(event) {
        return Err(Refusal::Overrun);
    }
    let filled = size(event);
    if buffer.len() < filled {
        return Err(Refusal::Tables);
    }
    put(buffer, event);
    Ok(filled)
}
