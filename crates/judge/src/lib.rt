// The tests that may refuse a call, each written once. Every function accepts any arguments.
#![tactic(auto)]

ghost use Rattle.std.specs.Prelude.{◌≡◌, ltb};
ghost use Rattle.rules.specs.Settings.{out_of_range, needed, outside};
ghost use Rattle.rules.specs.Events.{overrun};
ghost use Rattle.rules.specs.Layout.{tables_of, buckets_of};
ghost use Rattle.rules.specs.Conditions.{buckets_too_short, too_short, torn_record, full, stale};

use rules::{
    FULL_RATE, MOST_BUCKETS, MOST_KIND, MOST_LIMIT, MOST_REFERENCES, MOST_WIDTH, Numbers, Record,
    Settings, Shape,
};

// Whether a setting is not between 1 and `most`.
fn outside(most: u64, setting: u64) -> bool
    ensures { result ≡ outside most setting }
{
    (setting == 0) | (most < setting)
}

// Whether a setting, after defaults, is outside its range.
pub fn out_of_range(s: Settings) -> bool
    ensures { result ≡ out_of_range s }
{
    outside(MOST_LIMIT, s.limit)
        | outside(FULL_RATE, s.start)
        | outside(MOST_WIDTH, s.width)
        | outside(MOST_BUCKETS, s.buckets)
        | (MOST_KIND < s.hashing.kind)
}

// Whether a record is torn. No part of the test is deeply nested, which lets the compiler use each part later.
pub fn torn(kept: Record) -> bool
    ensures { result ≡ torn_record kept }
{
    let s = kept.settings;
    let n = kept.numbers;
    out_of_range(s)
        | ((s.limit < kept.live)
            | (s.start < kept.threshold)
            | (n.references < n.sampled)
            | (MOST_REFERENCES < n.references))
}

// Whether a bucket table with this many entries is too short for this many buckets. If the sum would wrap, any table is too short.
fn shorter(entries: u64, buckets: u64) -> bool
    ensures { result ≡ ltb entries (needed buckets) }
{
    if 0xffff_ffff_ffff_fffd < buckets {
        return true;
    }
    entries < buckets + 2
}

// Whether a bucket table is too short.
pub fn buckets_too_short(s: Settings, counts: &[u64], thresholds: &[u32]) -> bool
    ensures { result ≡ buckets_too_short s (buckets_of counts.now thresholds.now) }
{
    shorter(counts.len() as u64, s.buckets) | shorter(thresholds.len() as u64, s.buckets)
}

// Whether a table is too short.
pub fn too_short(s: Settings, locations: &[u64], counts: &[u64], thresholds: &[u32]) -> bool
    ensures { result ≡ too_short s (tables_of locations.now counts.now thresholds.now) }
{
    ((locations.len() as u64) < s.limit) | buckets_too_short(s, counts, thresholds)
}

// Whether no more references can be counted.
pub fn is_full(n: Numbers) -> bool
    ensures { result ≡ full n }
{
    n.references == MOST_REFERENCES
}

// Whether a span has bytes and the last of them passes 2^64 - 1. Nothing is added that could wrap. Offset and length stay two, as they are in
// `Event::Span`, of which the theorems speak.
pub fn overruns(offset: u64, length: u32) -> bool
    ensures { result ≡ overrun offset length }
{
    if length == 0 {
        return false;
    }
    0xffff_ffff_ffff_ffff - offset < (length as u64) - 1
}

// Whether the believed shape differs from the tracker's.
pub fn is_stale(believed: Shape, s: Settings) -> bool
    ensures { result ≡ stale believed s }
{
    believed != Shape::from(s)
}
