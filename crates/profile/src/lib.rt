// How the curve is cut: the bucket of a scaled distance and the size of a point. No other code knows this.
#![tactic(auto)]

ghost use Rattle.std.specs.Prelude.{◌≡◌, ℕ, max};
ghost use Rattle.rules.specs.Reference.{widths};

// The bucket of a scaled distance. Past the last bucket this is far, the bucket after it. A width of 0, which no settings in range have,
// counts as 1.
pub fn bucket_of(width: u64, buckets: u64, distance: u64) -> u64
    ensures { result ≡ (widths (max 1 width) buckets).bucket_of distance }
{
    (distance / width.max(1)).min(buckets)
}

// The size of a point, in blocks. The parameters have 32 bits, so the product fits in 64.
pub fn size_of(width: u32, point: u32) -> u64
    ensures { (buckets : ℕ) → result ≡ (widths width buckets).size point }
{
    (point as u64) * (width as u64)
}
