// Feeds the bytes of a trace to a tracker, event by event.
#![tactic(auto)]

ghost use Rattle.std.specs.Prelude.{◌≡◌};
ghost use Rattle.rules.specs.Answers.{number, result_of};
ghost use Rattle.rules.specs.Layout.{tracker};
ghost use Rattle.feed.specs.Feed.{unreadable, feed_of, after_fed};

use rules::{Got, Record, Refusal};

// Where bytes end of which no event is refused.
#[derive(Clone, Copy, PartialEq, Eq)]
pub enum End {
    // After a whole event.
    Whole,
    // Inside an event, which was not taken.
    Inside,
}

// How many bytes were taken, and why no more were: they end, or an event could not be read or was refused. The refused event begins right
// after the bytes taken; the references of a span that were accepted before one was refused stay counted.
#[derive(Clone, Copy)]
pub struct Fed {
    pub taken: usize,
    pub ending: Result<End, Refusal>,
}

// The ending at an event that cannot be read. An incomplete event is not refused yet.
fn unreadable(why: Refusal) -> Result<End, Refusal>
    ensures { result_of result ≡ unreadable (number why) }
{
    match why {
        Refusal::Short => Ok(End::Inside),
        _ => Err(why),
    }
}

// Applies event after event, until the bytes end, end inside an event, or an event is refused. Most events are one reference that is
// Skipped: they go round a short loop of their own, with the record in registers. Each event says itself how far the next one is.
pub fn feed(
    kept: &mut Record,
    bytes: &[u8],
    locations: &mut [u64],
    counts: &mut [u64],
    thresholds: &mut [u32],
) -> Fed
    ensures { after_fed result (tracker kept.new locations.new counts.new thresholds.new)
        ≡ feed_of bytes.now (tracker kept.old locations.old counts.old thresholds.old) }
{
    // The place is what is returned as `taken`; a slice that shrinks, or a reader, would have to be asked for it.
    let mut at = 0;
    // A copy, in registers: with the record written through the loan, a Skipped reference takes nearly twice the instructions, 89 for 48.
    let mut latest = *kept;
    while at < bytes.len() {
        match reading::read(&bytes[at..]) {
            Ok(Got { event, taken }) => {
                if let Some(after) = apply::skip(latest, event, locations, counts, thresholds) {
                    latest = after;
                    at += taken;
                    continue;
                }
                *kept = latest;
                if let Err(why) = apply::apply(kept, event, locations, counts, thresholds) {
                    return Fed {
                        taken: at,
                        ending: Err(why),
                    };
                }
                latest = *kept;
                at += taken;
            }
            Err(why) => {
                *kept = latest;
                return Fed {
                    taken: at,
                    ending: unreadable(why),
                };
            }
        }
    }
    *kept = latest;
    Fed {
        taken: at,
        ending: Ok(End::Whole),
    }
}
