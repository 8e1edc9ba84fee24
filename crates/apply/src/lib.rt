// Applies one trace event to a tracker.
#![tactic(auto)]

ghost use Rattle.std.specs.Prelude.{◌≡◌, ◌+◌, ◌^◌, ◌≤◌, false, [], ◌∷◌};
ghost use Rattle.rules.specs.Answers.{result_of};
ghost use Rattle.rules.specs.Order.{outcome};
ghost use Rattle.rules.specs.Events.{rising, blocks_in, overrun};
ghost use Rattle.rules.specs.Layout.{tracker};
ghost use Rattle.rules.specs.Calls.{refer_all, apply_of};
ghost use Rattle.apply.specs.EventCall.{skip_event};

use rules::{BLOCK_BYTES, Event, Record, Refusal, Settings};

// How many blocks hold a byte of the span.
fn blocks_in(offset: u64, length: u32) -> u64
    requires { overrun offset length ≡ false }
    ensures { result ≡ blocks_in offset length }
{
    if length == 0 {
        return 0;
    }
    let last = offset + ((length as u64) - 1);
    last / BLOCK_BYTES - offset / BLOCK_BYTES + 1
}

// One reference. Most are Skipped, which `skip` finds out in few instructions. `refer` is called in this one place only, so that a program
// in which nothing else calls it has it compiled into its loop.
fn refer_one(
    kept: &mut Record,
    location: u64,
    locations: &mut [u64],
    counts: &mut [u64],
    thresholds: &mut [u32],
) -> Result<(), Refusal>
    ensures { outcome (result_of result) (tracker kept.new locations.new counts.new thresholds.new)
        ≡ refer_all (location ∷ []) (tracker kept.old locations.old counts.old thresholds.old) }
{
    if let Some(after) = refer::skip(*kept, location, locations, counts, thresholds) {
        *kept = after;
        return Ok(());
    }
    refer::refer(kept, location, locations, counts, thresholds)?;
    Ok(())
}

// One reference to each of `number` locations from `first` on, rising, until one is refused. The locations are counted through, never
// listed.
fn refer_each(
    kept: &mut Record,
    first: u64,
    number: u64,
    locations: &mut [u64],
    counts: &mut [u64],
    thresholds: &mut [u32],
) -> Result<(), Refusal>
    requires { first + number ≤ 2 ^ 64 }
    ensures { outcome (result_of result) (tracker kept.new locations.new counts.new thresholds.new)
        ≡ refer_all (rising first number) (tracker kept.old locations.old counts.old thresholds.old) }
{
    for i in 0..number {
        refer_one(kept, first + i, locations, counts, thresholds)?;
    }
    Ok(())
}

// The record after an event that is one reference, accepted and Skipped: then only the number of references rises. `None` for any other.
// `apply` says the same; this is the part of it that is short enough to be compiled into a loop over events.
pub fn skip(
    kept: Record,
    event: Event,
    locations: &[u64],
    counts: &[u64],
    thresholds: &[u32],
) -> Option<Record>
    ensures { result ≡ skip_event event (tracker kept locations.now counts.now thresholds.now) }
{
    let location = match event {
        Event::Location(location) => location,
        Event::Span { offset, length } => {
            if judge::overruns(offset, length) || blocks_in(offset, length) != 1 {
                return None;
            }
            offset / BLOCK_BYTES
        }
        Event::Restart | Event::Setup(_) => return None,
    };
    refer::skip(kept, location, locations, counts, thresholds)
}

// Applies one trace event. A span refers to each block that holds one of its bytes, from the first to the last.
pub fn apply(
    kept: &mut Record,
    event: Event,
    locations: &mut [u64],
    counts: &mut [u64],
    thresholds: &mut [u32],
) -> Result<(), Refusal>
    ensures { outcome (result_of result) (tracker kept.new locations.new counts.new thresholds.new)
        ≡ apply_of event (tracker kept.old locations.old counts.old thresholds.old) }
{
    let (first, number) = match event {
        Event::Location(location) => (location, 1),
        Event::Span { offset, length } => {
            if judge::overruns(offset, length) {
                return Err(Refusal::Overrun);
            }
            (offset / BLOCK_BYTES, blocks_in(offset, length))
        }
        Event::Restart => {
            *kept = setup::restart(*kept, locations, counts, thresholds)?;
            return Ok(());
        }
        Event::Setup(body) => {
            *kept = setup::setup(Settings::from(body), locations, counts, thresholds)?;
            return Ok(());
        }
    };
    refer_each(kept, first, number, locations, counts, thresholds)
}
