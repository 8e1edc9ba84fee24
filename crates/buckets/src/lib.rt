// The histogram in its two lent tables: each bucket's count, in units of 1/256 reference, and the threshold it was last recorded under. They
// stay two, here and in all that is lent them: C lends them so, to some calls for reading only. Threshold and references stay two numbers:
// the record has them, beside what is of no concern here, and a struct of the two would be made anew at each call.
#![tactic(auto)]

ghost use Rattle.std.specs.Prelude.{◌≡◌, false, ◌≤◌, min, length};
ghost use Rattle.rules.specs.Answers.{result_of};
ghost use Rattle.rules.specs.Order.{outcome};
ghost use Rattle.rules.specs.Layout.{buckets_of};
ghost use Rattle.rules.specs.Conditions.{torn_bucket};
ghost use Rattle.buckets.specs.Buckets.{recorded_of, SoFar, added_to, report_of};

use rules::{FULL_RATE, ONE_REFERENCE, Refusal};

// The sums of a report: the hits at a point, and the total.
#[derive(Clone, Copy)]
pub struct Sums {
    pub hits: u64,
    pub total: u64,
}

// The sum of some buckets' raw counts, and the sum of their counts as reported.
#[derive(Clone, Copy)]
struct Adding {
    raw: u64,
    sum: u64,
}

// Whether a bucket with this count and this bucket threshold is torn.
fn torn(count: u64, own: u32, threshold: u64, references: u32) -> bool
    ensures { result ≡ torn_bucket references threshold count own }
{
    let b = own as u64;
    let most = ONE_REFERENCE * (references as u64);
    (b == 0) | (b < threshold) | (FULL_RATE < b) | (most < count)
}

// Records one reference in the bucket at a place. Torn, with nothing changed: the place is outside a table, or the bucket is torn.
pub fn record_in(
    counts: &mut [u64],
    thresholds: &mut [u32],
    at: usize,
    threshold: u64,
    references: u32,
) -> Result<(), Refusal>
    ensures { outcome (result_of result) (buckets_of counts.new thresholds.new)
        ≡ recorded_of references threshold at (buckets_of counts.old thresholds.old) }
{
    if counts.len() <= at {
        return Err(Refusal::Torn);
    }
    if thresholds.len() <= at {
        return Err(Refusal::Torn);
    }
    let count = counts[at];
    let own = thresholds[at];
    if torn(count, own, threshold, references) {
        return Err(Refusal::Torn);
    }
    let b = own as u64;
    counts[at] = count * threshold / b + ONE_REFERENCE;
    thresholds[at] = threshold as u32;
    Ok(())
}

// Adds the buckets of a range to the sums of those before it. Torn: one is torn, or the sum of the raw counts is too large.
fn add_up(
    counts: &[u64],
    thresholds: &[u32],
    from: usize,
    to: usize,
    adding: Adding,
    threshold: u64,
    references: u32,
) -> Result<Adding, Refusal>
    requires { (from ≤ to) × (to ≤ length counts.now) × (to ≤ length thresholds.now)
        × SoFar references threshold from (buckets_of counts.now thresholds.now) adding.raw adding.sum }
    ensures { added_to references threshold to (buckets_of counts.now thresholds.now) result }
{
    let most = ONE_REFERENCE * (references as u64);
    let mut raw = adding.raw;
    let mut sum = adding.sum;
    for (&count, &own) in counts[from..to].iter().zip(&thresholds[from..to]) {
        if torn(count, own, threshold, references) {
            return Err(Refusal::Torn);
        }
        raw += count;
        if most < raw {
            return Err(Refusal::Torn);
        }
        let b = own as u64;
        sum += count * threshold / b;
    }
    Ok(Adding { raw, sum })
}

// Reports the first `needed` buckets under the threshold: the hits at a point and the total, in one pass. Tables: a table is too
// short. Torn: a bucket is torn, or the sum of the raw counts is too large.
pub fn report(
    counts: &[u64],
    thresholds: &[u32],
    needed: usize,
    point: usize,
    threshold: u64,
    references: u32,
) -> Result<Sums, Refusal>
    ensures { result_of result ≡ report_of references threshold needed point (buckets_of counts.now thresholds.now) }
{
    if (counts.len() < needed) | (thresholds.len() < needed) {
        return Err(Refusal::Tables);
    }
    let middle = point.min(needed);
    let none = Adding { raw: 0, sum: 0 };
    let hits = add_up(counts, thresholds, 0, middle, none, threshold, references)?;
    let total = add_up(
        counts, thresholds, middle, needed, hits, threshold, references,
    )?;
    Ok(Sums {
        hits: hits.sum,
        total: total.sum,
    })
}
