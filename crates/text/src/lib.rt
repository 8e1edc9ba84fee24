// Writes the curve as text, or the line for a refused event, at the front of a buffer. Document 01, "The curve program".
#![tactic(auto)]

ghost use Rattle.std.specs.Prelude.{◌≡◌, false, ◌++◌, ◌+◌, ◌*◌, ◌≤◌, length, eqb};
ghost use Rattle.rules.specs.Answers.{gives, number, result_of};
ghost use Rattle.rules.specs.Order.{outcome};
ghost use Rattle.rules.specs.Layout.{buckets_of};
ghost use Rattle.rules.specs.Calls.{point_on, own_point};
ghost use Rattle.text.specs.Text.{decimal, first_line, point_line, lines_to, Given, Judges, Puts, curve_in, refused_in};
ghost use Rattle.text.specs.Text.{longest_first, longest_point};

use rules::{Point, Record, Refusal, Shape};

// The most bytes that a first line can have, and that the line of a point can have.
const LONGEST_FIRST: usize = 118;

const LONGEST_POINT: usize = 63;

// ---- text in a buffer

// A buffer, and how many bytes of text stand at its front. It is no `fmt::Write`: no clause of `write!` says that it succeeds, and
// a curve that has room is never refused.
#[derive(Drop)]
struct Page<'a> {
    out: &'a mut [u8],
    filled: usize,
}

impl<'a> Page<'a> {
    fn put(&mut self, text: &[u8])
        requires { self.old.filled + length text.now ≤ length self.old.out.now }
        ensures { Puts self.old text.now self.new }
    {
        let end = self.filled + text.len();
        self.out[self.filled..end].copy_from_slice(text);
        self.filled = end;
    }

    fn put_number(&mut self, n: u64)
        requires { self.old.filled + 20 ≤ length self.old.out.now }
        ensures puts { Puts self.old (decimal n) self.new }
        ensures upper_bound { self.new.filled ≤ self.old.filled + 20 }
    {
        let mut digits = [0u8; 20];
        let count = io::decimal(n, &mut digits);
        self.put(&digits[..count]);
    }

    fn put_both(&mut self, word: &[u8], n: u64)
        requires { self.old.filled + length word.now + 20 ≤ length self.old.out.now }
        ensures puts { Puts self.old (word.now ++ decimal n) self.new }
        ensures upper_bound { self.new.filled ≤ self.old.filled + length word.now + 20 }
    {
        self.put(word);
        self.put_number(n);
    }

    // The first line: references, sampled references, threshold and live number.
    fn put_first_line(&mut self, kept: Record)
        requires { self.old.filled + longest_first ≤ length self.old.out.now }
        ensures puts { Puts self.old (first_line kept) self.new }
        ensures upper_bound { self.new.filled ≤ self.old.filled + longest_first }
    {
        self.put_both(b"curve refs ", kept.numbers.references);
        self.put_both(b" sampled ", kept.numbers.sampled);
        self.put_both(b" threshold ", kept.threshold);
        self.put_both(b" live ", kept.live);
        self.put(b"\n");
    }

    // The line of a point: size, misses and total.
    fn put_point_line(&mut self, p: Point)
        requires { self.old.filled + longest_point ≤ length self.old.out.now }
        ensures puts { Puts self.old (point_line p) self.new }
        ensures upper_bound { self.new.filled ≤ self.old.filled + longest_point }
    {
        self.put_number(p.size);
        self.put_both(b" ", p.misses);
        self.put_both(b" ", p.total);
        self.put(b"\n");
    }

    // The line of a point that is not refused.
    fn put_point(&mut self, kept: Record, number: u64, counts: &[u64], thresholds: &[u32])
        requires longest_point_in_bounds { self.old.filled + longest_point ≤ length self.old.out.now }
        requires given { Given kept number (buckets_of counts.now thresholds.now) }
        ensures puts { Puts self.old (point_line (point_on kept number (buckets_of counts.now thresholds.now))) self.new }
        ensures upper_bound { self.new.filled ≤ self.old.filled + longest_point }
    {
        if let Ok(p) = point_at(kept, number, counts, thresholds) {
            self.put_point_line(p);
        }
    }

    // One line for each point, 0 to B.
    fn put_points(&mut self, kept: Record, counts: &[u64], thresholds: &[u32])
        requires buckets_in_bounds { self.old.filled + longest_point * (kept.settings.buckets + 1) ≤ length self.old.out.now }
        requires judges { Judges kept (buckets_of counts.now thresholds.now) (gives false) }
        ensures puts { Puts self.old (lines_to (kept.settings.buckets + 1) kept (buckets_of counts.now thresholds.now)) self.new }
        ensures upper_bound { self.new.filled ≤ self.old.filled + longest_point * (kept.settings.buckets + 1) }
    {
        for number in 0..=kept.settings.buckets {
            self.put_point(kept, number, counts, thresholds);
        }
    }
}

// ---- the curve

// A point, for the record's own shape.
fn point_at(kept: Record, number: u64, counts: &[u64], thresholds: &[u32]) -> Result<Point, Refusal>
    ensures { result_of result ≡ own_point kept number (buckets_of counts.now thresholds.now) }
{
    points::point(kept, Shape::from(kept.settings), number, counts, thresholds)
}

// ---- at the front of a buffer

// Writes a curve that is not refused, once it is known whether its total is 0. (A closure that puts the rest would be no plainer than the flag.)
fn put_given(
    out: &mut [u8],
    empty: bool,
    kept: Record,
    counts: &[u64],
    thresholds: &[u32],
) -> Result<usize, Refusal>
    requires { Judges kept (buckets_of counts.now thresholds.now) (gives empty) }
    ensures { outcome (result_of result) out.new ≡ curve_in kept (buckets_of counts.now thresholds.now) out.old }
{
    let points = kept.settings.buckets as usize + 1;
    if out.len() < LONGEST_FIRST + LONGEST_POINT * points + 4 {
        return Err(Refusal::Tables);
    }
    let mut page = Page { out, filled: 0 };
    page.put_first_line(kept);
    if empty {
        page.put(b"empty\n");
        return Ok(page.filled);
    }
    page.put_points(kept, counts, thresholds);
    page.put(b"end\n");
    Ok(page.filled)
}

// Whether a point is refused since there is nothing to report.
fn is_empty(why: Refusal) -> bool
    ensures { result ≡ eqb (number why) 9 }
{
    why == Refusal::Empty
}

// Writes the curve and returns its length. It is refused, and nothing is changed, if the record is torn, a table is too short, a
// bucket is torn, or the buffer might be too short for a curve with so many buckets.
pub fn put_curve(
    out: &mut [u8],
    kept: Record,
    counts: &[u64],
    thresholds: &[u32],
) -> Result<usize, Refusal>
    ensures { outcome (result_of result) out.new ≡ curve_in kept (buckets_of counts.now thresholds.now) out.old }
{
    match point_at(kept, 0, counts, thresholds) {
        Ok(_) => put_given(out, false, kept, counts, thresholds),
        Err(why) if is_empty(why) => put_given(out, true, kept, counts, thresholds),
        Err(why) => Err(why),
    }
}

// The most bytes that the line for a refused event takes.
const LONGEST_REFUSED: usize = 53;

// Writes the line for a refused event, with the refusal's number and the place of the event's first byte, and returns its length.
// A buffer of fewer than 53 bytes is refused. The refusal is a number here: the promise is made of any number, and a `Refusal` would ask more.
pub fn put_refused_line(out: &mut [u8], number: u64, place: u64) -> Result<usize, Refusal>
    ensures { outcome (result_of result) out.new ≡ refused_in number place out.old }
{
    if out.len() < LONGEST_REFUSED {
        return Err(Refusal::Tables);
    }
    let mut page = Page { out, filled: 0 };
    page.put_both(b"refused ", number);
    page.put_both(b" at ", place);
    page.put(b"\n");
    Ok(page.filled)
}
