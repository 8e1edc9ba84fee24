// A list of locations, which the caller takes from the front of a table.
#![tactic(auto)]

ghost use Rattle.std.specs.Prelude.{◌≡◌};
ghost use Rattle.rules.specs.Settings.{hash_of};
ghost use Rattle.rules.specs.Reference.{first_place, largest};
ghost use Rattle.live.specs.Live.{moved_to_front, remaining, remaining_of, lowering, lowering_of};

use rules::Hashing;

// The threshold and the number of locations after a lowering.
#[derive(Clone, Copy)]
pub struct Lowered {
    pub threshold: u64,
    pub live: usize,
}

// Finds the place, counted from 0, where the location first occurs: `None` if it is not in the list.
#[tactic(auto, using(crate::proofs::Laws::search_hit, crate::proofs::Laws::search_miss, crate::proofs::Laws::search_end))]
pub fn first_place(list: &[u64], location: u64) -> Option<usize>
    ensures { result ≡ first_place location list.now }
{
    let mut place: usize = 0;
    // Document 01 names this form: a loop that yields the place, or absence, by `break`.
    loop {
        if list.len() <= place {
            break None;
        }
        if list[place] == location {
            break Some(place);
        }
        place += 1;
    }
}

// Puts the location at the front. The entries before the place move back by one; the entry at the place is overwritten.
// If the place is past the end, nothing changes.
#[tactic(auto, using(crate::proofs::Laws::moved_some, crate::proofs::Laws::moved_unfilled, crate::proofs::Laws::moved_none))]
pub fn to_front(locations: &mut [u64], place: usize, location: u64)
    ensures { locations.new ≡ moved_to_front place location locations.old }
{
    if place < locations.len() {
        locations.copy_within(0..place, 1);
        locations[0] = location;
    }
}

// The largest hash in the list, or 0 if the list is empty.
#[tactic(auto, using(crate::proofs::Laws::largest_more), unfolding(rules::specs::Reference::largest))]
pub fn largest_hash(list: &[u64], hashing: Hashing) -> u64
    ensures { result ≡ largest (hash_of hashing) list.now }
{
    let mut most: u64 = 0;
    for location in list {
        most = most.max(hash::hash_of(hashing, *location));
    }
    most
}

// Keeps the entries whose hash is below the threshold, in order, and drops the others. Returns how many are kept.
pub fn keep_below(list: &mut [u64], hashing: Hashing, threshold: u64) -> usize
    ensures { remaining result list.new ≡ remaining_of (hash_of hashing) threshold list.old }
{
    let mut number: usize = 0;
    // By index, since it writes to the slice that it reads, behind the place where it reads.
    for i in 0..list.len() {
        let location = list[i];
        if hash::hash_of(hashing, location) < threshold {
            list[number] = location;
            number += 1;
        }
    }
    number
}

// Puts a new location in front of a list without room for it: the threshold falls, and every entry whose hash is not below it is
// dropped, perhaps the new one too.
pub fn lower(list: &mut [u64], hashing: Hashing, threshold: u64, location: u64) -> Lowered
    ensures { lowering result list.new ≡ lowering_of (hash_of hashing) threshold location list.old }
{
    let own = hash::hash_of(hashing, location);
    let others = largest_hash(list, hashing);
    let fallen = threshold.min(own.max(others));
    let number = keep_below(list, hashing, fallen);
    if own < fallen {
        to_front(list, number, location);
        return Lowered {
            threshold: fallen,
            live: number + 1,
        };
    }
    Lowered {
        threshold: fallen,
        live: number,
    }
}
