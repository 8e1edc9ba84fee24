// The hash of a location, by kind.
#![tactic(auto)]

ghost use Rattle.std.specs.Prelude.{◌≡◌, ◌*◌, ◌%◌, ◌^◌};
ghost use Rattle.rules.specs.Settings.{shift_step, finaliser, hash_of};

use rules::{FULL_RATE, Hashing};

// x * m modulo 2^64, from 32-bit halves. Only the lower halves of the two middle products count, and the highest product not at all.
#[tactic(auto, using(crate::proofs::Product::halves))]
pub fn times(x: u64, m: u64) -> u64
    ensures { result ≡ x * m % 2 ^ 64 }
{
    let x_low = x % 0x1_0000_0000;
    let x_high = x / 0x1_0000_0000;
    let m_low = m % 0x1_0000_0000;
    let m_high = m / 0x1_0000_0000;
    let middle = (x_high * m_low).wrapping_add(x_low * m_high);
    let upper = middle % 0x1_0000_0000 * 0x1_0000_0000;
    upper.wrapping_add(x_low * m_low)
}

// x xor (x shifted right by 33).
#[tactic(auto, unfolding(rules::specs::Settings::shift_step))]
fn shift_step(x: u64) -> u64
    ensures { result ≡ shift_step x }
{
    x ^ (x >> 33)
}

// The 64-bit finaliser of MurmurHash3.
#[tactic(auto, unfolding(rules::specs::Settings::finaliser))]
fn finaliser(x: u64) -> u64
    ensures { result ≡ finaliser x }
{
    let first = times(shift_step(x), 0xff51_afd7_ed55_8ccd);
    let second = times(shift_step(first), 0xc4ce_b9fe_1a85_ec53);
    shift_step(second)
}

// The hash of a location: for kind 0 the location modulo 2^24, for any other kind its finaliser modulo 2^24.
#[tactic(auto, unfolding(rules::specs::Settings::hash_of))]
pub fn hash_of(hashing: Hashing, location: u64) -> u64
    ensures { result ≡ hash_of hashing location }
{
    if hashing.kind == 0 {
        location % FULL_RATE
    } else {
        finaliser(location) % FULL_RATE
    }
}
