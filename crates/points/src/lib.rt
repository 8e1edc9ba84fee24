// The points of the curve. Each public function accepts any record, believed shape and point number, and tables of any length and
// contents. The tables stay two, here and in the text of the curve: a struct of them would be made anew at each call, and be no plainer.
#![tactic(auto)]

ghost use Rattle.std.specs.Prelude.{◌≡◌, ◌≤◌};
ghost use Rattle.rules.specs.Settings.{most_buckets, most_width};
ghost use Rattle.rules.specs.Answers.{result_of};
ghost use Rattle.rules.specs.Layout.{buckets_of};
ghost use Rattle.rules.specs.Calls.{point_of, plot_of};
ghost use Rattle.points.specs.Points.{from_sums};

use buckets::Sums;
use rules::{PlotPoint, Point, Record, Refusal, Settings, Shape};

// The point with this number, from the sums of a report.
fn point_of(s: Settings, number: u64, sums: Sums) -> Result<Point, Refusal>
    requires { (number ≤ most_buckets) × (s.width ≤ most_width) × (sums.hits ≤ sums.total) }
    ensures { result_of result ≡ from_sums s number sums }
{
    if sums.total == 0 {
        return Err(Refusal::Empty);
    }
    Ok(Point {
        size: profile::size_of(s.width as u32, number as u32),
        hits: sums.hits,
        misses: sums.total - sums.hits,
        total: sums.total,
    })
}

// A point of the curve, for the shape that the caller believes it to have.
pub fn point(
    kept: Record,
    believed: Shape,
    number: u64,
    counts: &[u64],
    thresholds: &[u32],
) -> Result<Point, Refusal>
    ensures { result_of result ≡ point_of kept believed number (buckets_of counts.now thresholds.now) }
{
    if judge::torn(kept) {
        return Err(Refusal::Torn);
    }
    let s = kept.settings;
    if judge::buckets_too_short(s, counts, thresholds) {
        return Err(Refusal::Tables);
    }
    if judge::is_stale(believed, s) {
        return Err(Refusal::Stale);
    }
    if s.buckets < number {
        return Err(Refusal::Point);
    }
    let needed = (s.buckets + 2) as usize;
    let references = kept.numbers.references as u32;
    let sums = buckets::report(
        counts,
        thresholds,
        needed,
        number as usize,
        kept.threshold,
        references,
    )?;
    point_of(s, number, sums)
}

// The same point as a pair of doubles: the size, and misses divided by total, rounded once.
pub fn plot_point(
    kept: Record,
    believed: Shape,
    number: u64,
    counts: &[u64],
    thresholds: &[u32],
) -> Result<PlotPoint, Refusal>
    ensures { result_of result ≡ plot_of kept believed number (buckets_of counts.now thresholds.now) }
{
    let p = point(kept, believed, number, counts, thresholds)?;
    Ok(PlotPoint {
        size: p.size as f64,
        ratio: (p.misses as f64) / (p.total as f64),
    })
}
