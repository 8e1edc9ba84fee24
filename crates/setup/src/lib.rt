// Fresh starts: setup and restart. Both accept any settings or record, and tables of any length and contents.
#![tactic(auto)]

ghost use Rattle.std.specs.Prelude.{◌≡◌, false, ◌≤◌, length, replicate};
ghost use Rattle.rules.specs.Lists.{over};
ghost use Rattle.rules.specs.Settings.{with_defaults, or_default, out_of_range};
ghost use Rattle.rules.specs.Answers.{result_of};
ghost use Rattle.rules.specs.Order.{outcome};
ghost use Rattle.rules.specs.Layout.{buckets_of, fresh_buckets, fresh_record, tables_of};
ghost use Rattle.rules.specs.Conditions.{buckets_too_short};
ghost use Rattle.rules.specs.Calls.{setup_of, restart_of};

use rules::{
    DEFAULT_BUCKETS, DEFAULT_LIMIT, DEFAULT_START, DEFAULT_WIDTH, Numbers, Record, Refusal,
    Settings,
};

fn or_default(setting: u64, default: u64) -> u64
    ensures { result ≡ or_default default setting }
{
    if setting == 0 { default } else { setting }
}

// The settings with the defaults in place of zeros.
#[tactic(auto, unfolding(rules::specs::Settings::with_defaults))]
pub fn with_defaults(given: Settings) -> Settings
    ensures { result ≡ with_defaults given }
{
    Settings {
        limit: or_default(given.limit, DEFAULT_LIMIT),
        start: or_default(given.start, DEFAULT_START),
        width: or_default(given.width, DEFAULT_WIDTH),
        buckets: or_default(given.buckets, DEFAULT_BUCKETS),
        hashing: given.hashing,
    }
}

// Resets the first n buckets: counts to 0, bucket thresholds to `start`. Not by `fill`, which would be compiled to memset: a C program would
// have to supply it; and by index, since after `iter_mut` nothing is known of the entries. The n holds for both tables.
fn clear(counts: &mut [u64], thresholds: &mut [u32], n: usize, start: u32)
    requires { (n ≤ length counts.old) × (n ≤ length thresholds.old) }
    ensures counts_after { counts.new ≡ over (replicate n 0) counts.old }
    ensures thresholds_after { thresholds.new ≡ over (replicate n start) thresholds.old }
{
    for i in 0..n {
        counts[i] = 0;
        thresholds[i] = start;
    }
}

// A fresh start, once nothing refuses it.
fn begin(s: Settings, counts: &mut [u64], thresholds: &mut [u32]) -> Record
    requires { (out_of_range s ≡ false) × (buckets_too_short s (buckets_of counts.old thresholds.old) ≡ false) }
    ensures value { result ≡ fresh_record s }
    ensures thresholds_value { buckets_of counts.new thresholds.new ≡ fresh_buckets s (buckets_of counts.old thresholds.old) }
{
    let start = s.start;
    clear(counts, thresholds, (s.buckets + 2) as usize, start as u32);
    Record {
        settings: s,
        threshold: start,
        live: 0,
        numbers: Numbers {
            references: 0,
            sampled: 0,
        },
    }
}

// A setup: a fresh start with these settings, zeros standing for defaults.
pub fn setup(
    given: Settings,
    locations: &[u64],
    counts: &mut [u64],
    thresholds: &mut [u32],
) -> Result<Record, Refusal>
    ensures { outcome (result_of result) (tables_of locations.now counts.new thresholds.new)
        ≡ setup_of given (tables_of locations.now counts.old thresholds.old) }
{
    let s = with_defaults(given);
    if judge::out_of_range(s) {
        return Err(Refusal::Settings);
    }
    if judge::too_short(s, locations, counts, thresholds) {
        return Err(Refusal::Tables);
    }
    Ok(begin(s, counts, thresholds))
}

// A restart: a fresh start with the record's own settings.
pub fn restart(
    kept: Record,
    locations: &[u64],
    counts: &mut [u64],
    thresholds: &mut [u32],
) -> Result<Record, Refusal>
    ensures { outcome (result_of result) (tables_of locations.now counts.new thresholds.new)
        ≡ restart_of kept (tables_of locations.now counts.old thresholds.old) }
{
    if judge::torn(kept) {
        return Err(Refusal::Torn);
    }
    let s = kept.settings;
    if judge::too_short(s, locations, counts, thresholds) {
        return Err(Refusal::Tables);
    }
    Ok(begin(s, counts, thresholds))
}
