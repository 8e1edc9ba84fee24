// One reference: the tests, the hash, the live list and the bucket. `refer` accepts any record, any location, and tables of any length
// and contents. Record and tables are parameters, here and in all that C reaches: it lends them one by one, some for reading only, and two
// tables in a struct of loans cannot be lent to one call.
#![tactic(auto)]

ghost use Rattle.std.specs.Prelude.{◌≡◌, ◌<◌, ◌≤◌, Some, None, length};
ghost use Rattle.rules.specs.Settings.{most_references, most_limit};
ghost use Rattle.rules.specs.Reference.{first_place, scaled_distance};
ghost use Rattle.rules.specs.Answers.{result_of};
ghost use Rattle.rules.specs.Order.{outcome};
ghost use Rattle.rules.specs.Layout.{tracker, live_of};
ghost use Rattle.rules.specs.Calls.{refer_of};
ghost use Rattle.refer.specs.Refer.{counted_in, entered_of, Samples, skip_of};
ghost use Rattle.live.specs.Live.{lowering};

use live::Lowered;
use rules::{FULL_RATE, Record, Refusal, Reply};

// Counts one reference more, and `sampled` more sampled ones.
fn count(kept: &mut Record, sampled: u64)
    requires { (kept.old.numbers.references < most_references) × (kept.old.numbers.sampled ≤ kept.old.numbers.references)
        × (sampled ≤ 1) }
    ensures { kept.new ≡ counted_in kept.old kept.old.threshold kept.old.live sampled }
{
    kept.numbers.references += 1;
    kept.numbers.sampled += sampled;
}

// The distance of a place in the live list, scaled to full rate.
fn scaled_distance(place: usize, threshold: u64) -> u64
    requires { (place < most_limit) × (0 < threshold) }
    ensures { result ≡ scaled_distance threshold place }
{
    (place as u64) * FULL_RATE / threshold
}

// A sampled reference to a location that first occurs at `place` in the live list. (`Samples` is a fact about all that is lent, here and below:
// no struct could carry it.)
fn again_at(
    kept: &mut Record,
    location: u64,
    place: usize,
    locations: &mut [u64],
    counts: &mut [u64],
    thresholds: &mut [u32],
) -> Result<Reply, Refusal>
    requires { Samples location (tracker kept.old locations.old counts.old thresholds.old)
        × (first_place location (live_of (tracker kept.old locations.old counts.old thresholds.old)) ≡ Some place) }
    ensures { outcome (result_of result) (tracker kept.new locations.new counts.new thresholds.new)
        ≡ refer_of location (tracker kept.old locations.old counts.old thresholds.old) }
{
    let threshold = kept.threshold;
    let distance = scaled_distance(place, threshold);
    let bucket = profile::bucket_of(kept.settings.width, kept.settings.buckets, distance) as usize;
    let references = kept.numbers.references as u32;
    buckets::record_in(counts, thresholds, bucket, threshold, references)?;
    live::to_front(locations, place, location);
    count(kept, 1);
    Ok(Reply::Again(place as u64))
}

// Puts a location at the front of the live list, and lowers the threshold if there is no room for it. Returns the threshold and the
// live number after that.
fn enter(kept: Record, location: u64, locations: &mut [u64]) -> Lowered
    ensures { lowering result locations.new ≡ entered_of kept location locations.old }
{
    let live = kept.live as usize;
    if kept.live < kept.settings.limit {
        live::to_front(locations, live, location);
        return Lowered {
            threshold: kept.threshold,
            live: live + 1,
        };
    }
    let end = live.min(locations.len());
    live::lower(
        &mut locations[..end],
        kept.settings.hashing,
        kept.threshold,
        location,
    )
}

// A sampled reference to a location that is not in the live list.
fn first_time(
    kept: &mut Record,
    location: u64,
    locations: &mut [u64],
    counts: &mut [u64],
    thresholds: &mut [u32],
) -> Result<Reply, Refusal>
    requires { Samples location (tracker kept.old locations.old counts.old thresholds.old)
        × (first_place location (live_of (tracker kept.old locations.old counts.old thresholds.old)) ≡ None) }
    ensures { outcome (result_of result) (tracker kept.new locations.new counts.new thresholds.new)
        ≡ refer_of location (tracker kept.old locations.old counts.old thresholds.old) }
{
    let threshold = kept.threshold;
    let bucket = (kept.settings.buckets + 1) as usize;
    let references = kept.numbers.references as u32;
    buckets::record_in(counts, thresholds, bucket, threshold, references)?;
    let entered = enter(*kept, location, locations);
    kept.threshold = entered.threshold;
    kept.live = entered.live as u64;
    count(kept, 1);
    Ok(Reply::First)
}

// A sampled reference, to a location in the live list or to a new one.
#[tactic(auto, using(crate::proofs::OneReference::list_fits, crate::proofs::OneReference::counted_live))]
fn sampled(
    kept: &mut Record,
    location: u64,
    locations: &mut [u64],
    counts: &mut [u64],
    thresholds: &mut [u32],
) -> Result<Reply, Refusal>
    requires { Samples location (tracker kept.old locations.old counts.old thresholds.old) }
    ensures { outcome (result_of result) (tracker kept.new locations.new counts.new thresholds.new)
        ≡ refer_of location (tracker kept.old locations.old counts.old thresholds.old) }
{
    match live::first_place(&locations[..kept.live as usize], location) {
        Some(place) => again_at(kept, location, place, locations, counts, thresholds),
        None => first_time(kept, location, locations, counts, thresholds),
    }
}

// The record after a reference that is accepted and Skipped: then only the number of references rises, and nothing else changes. `None` if
// it is refused or sampled. `refer` says the same; this is the part of it that is short enough to be compiled into each caller.
pub fn skip(
    kept: Record,
    location: u64,
    locations: &[u64],
    counts: &[u64],
    thresholds: &[u32],
) -> Option<Record>
    ensures { result ≡ skip_of location (tracker kept locations.now counts.now thresholds.now) }
{
    if judge::torn(kept) {
        return None;
    }
    if judge::too_short(kept.settings, locations, counts, thresholds) {
        return None;
    }
    if judge::is_full(kept.numbers) {
        return None;
    }
    if hash::hash_of(kept.settings.hashing, location) < kept.threshold {
        return None;
    }
    let mut after = kept;
    count(&mut after, 0);
    Some(after)
}

// One reference.
pub fn refer(
    kept: &mut Record,
    location: u64,
    locations: &mut [u64],
    counts: &mut [u64],
    thresholds: &mut [u32],
) -> Result<Reply, Refusal>
    ensures { outcome (result_of result) (tracker kept.new locations.new counts.new thresholds.new)
        ≡ refer_of location (tracker kept.old locations.old counts.old thresholds.old) }
{
    if judge::torn(*kept) {
        return Err(Refusal::Torn);
    }
    if judge::too_short(kept.settings, locations, counts, thresholds) {
        return Err(Refusal::Tables);
    }
    if judge::is_full(kept.numbers) {
        return Err(Refusal::Full);
    }
    if kept.threshold <= hash::hash_of(kept.settings.hashing, location) {
        count(kept, 0);
        return Ok(Reply::Skipped);
    }
    sampled(kept, location, locations, counts, thresholds)
}
