// Gets and puts little-endian numbers at a place in bytes. Each public function accepts any place and any number of bytes; a number has at
// most eight, and a larger N stands for eight.
#![tactic(auto)]

ghost use Rattle.std.specs.Prelude.{◌≡◌, ◌+◌, ◌<◌, ◌≤◌, ◌^◌, leb, min};
ghost use Rattle.little_endian.specs.InBytes.{got_from, put_into};

// Whether the `count` bytes from `at` on are all there.
fn there(all: usize, at: usize, count: usize) -> bool
    ensures { result ≡ leb (at + count) all }
{
    if all < count {
        return false;
    }
    at <= all - count
}

// The number in `count` bytes, or 0 if they are not all there.
#[tactic(auto, using(crate::proofs::Laws::got_low, crate::proofs::Laws::got_there, crate::proofs::Laws::got_none))]
fn number_in(bytes: &[u8], at: usize, count: usize) -> u64
    requires { count ≤ 8 }
    ensures { result ≡ got_from count at bytes.now }
{
    if !there(bytes.len(), at, count) {
        return 0;
    }
    let mut low = [0; 8];
    low[..count].copy_from_slice(&bytes[at..at + count]);
    u64::from_le_bytes(low)
}

// The number in N bytes, or 0 if they are not all there.
pub fn get<const N: usize>(bytes: &[u8], at: usize) -> u64
    ensures value { result ≡ got_from (min N 8) at bytes.now }
    ensures small { result < 256 ^ min N 8 }
{
    number_in(bytes, at, N.min(8))
}

// Puts the lowest N bytes of a number. Changes nothing if they do not fit.
#[tactic(auto, using(crate::proofs::Laws::put_low, crate::proofs::Laws::put_there, crate::proofs::Laws::put_none))]
pub fn put<const N: usize>(buffer: &mut [u8], at: usize, x: u64)
    ensures { buffer.new ≡ put_into (min N 8) at x buffer.old }
{
    let count = N.min(8);
    if there(buffer.len(), at, count) {
        buffer[at..at + count].copy_from_slice(&x.to_le_bytes()[..count]);
    }
}
