// A reader holds the lent bytes and its own place in them. Document 01, "Trace events".
#![tactic(auto)]

ghost use Rattle.std.specs.Prelude.{◌≡◌};
ghost use Rattle.rules.specs.Layout.{part, tail_of};
ghost use Rattle.reader.specs.Reader.{left_at, at_front, next_of, moved, front_of};

use rules::{Got, Refusal};

#[derive(Clone, Copy)]
pub struct Reader<'a> {
    pub src: &'a [u8],
    pub at: usize,
}

impl<'a> Reader<'a> {
    // A reader at the front of the bytes.
    pub fn new(src: &'a [u8]) -> Reader<'a>
        ensures { result ≡ at_front src.entry }
    {
        Reader { src, at: 0 }
    }

    // Reads at the reader's place, and moves past the event. A refusal leaves the reader where it is, so that this is no Iterator: it would
    // have no end.
    pub fn next(&mut self) -> Result<Got, Refusal>
        ensures { moved result self.new ≡ next_of self.old }
    {
        let got = reading::read(self.left())?;
        self.at += got.taken;
        Ok(got)
    }

    // What is left to read, as a slice of the caller's own bytes: none, if the place is past the end.
    pub fn left(&self) -> &'a [u8]
        ensures { part result ≡ tail_of self.now.src (left_at self.now.src.now self.now.at) }
    {
        let start = self.at.min(self.src.len());
        &self.src[start..]
    }
}

// How many whole events are at the front, and the place of the first refusal.
#[derive(Clone, Copy)]
pub struct Front {
    pub events: usize,
    pub at: usize,
}

// Counts the whole events at the front of the bytes, by a reader's steps.
pub fn whole_events(bytes: &[u8]) -> Front
    ensures { result ≡ front_of bytes.now }
{
    let mut reader = Reader::new(bytes);
    let mut events: usize = 0;
    while reader.next().is_ok() {
        events += 1;
    }
    let at = reader.at;
    Front { events, at }
}
