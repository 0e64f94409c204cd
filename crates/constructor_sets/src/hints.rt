// Where the heads of a column were found among its pieces, by a key of few values. A column of very many heads often has
// few kinds of them, and a head with the ends of one before has its pieces too. These are hints alone: whoever takes one
// tests it, so any answer is right, and no contract speaks of them.
use crate::Span;
use no_memory::NoMemory;
use pat_context::Ctor;
use range_split::End;
use std::alloc::Global;

// How many keys are told apart.
const KEYS: usize = 512;

// How many heads are worth hints.
const MANY: usize = 64;

// No place.
const NOWHERE: usize = usize::MAX;

// For each key the last span whose head has it: by the low end of the head, and by its high end.
#[derive(Drop)]
pub(crate) struct Hints {
    firsts: Vec<usize>,
    ends: Vec<usize>,
}

impl Hints {
    // Hints for a column of so many heads, or none where these are few.
    pub(crate) fn with_room(alloc: Global, heads: usize) -> Result<Hints, NoMemory> {
        let keys = if heads < MANY { 0 } else { KEYS };
        let firsts = vec![in alloc; NOWHERE; keys]?;
        let ends = vec![in alloc; NOWHERE; keys]?;
        Ok(Hints { firsts, ends })
    }

    // Where to look for what the head has.
    pub(crate) fn span(&self, head: &Ctor) -> Span {
        Span {
            first: kept(&self.firsts, low_key(head)),
            end: kept(&self.ends, high_key(head)),
        }
    }

    // Keeps where it was found.
    pub(crate) fn keep(&mut self, head: &Ctor, span: Span) {
        keep(&mut self.firsts, low_key(head), span.first);
        keep(&mut self.ends, high_key(head), span.end);
    }
}

// What is kept for the key.
fn kept(places: &[usize], key: usize) -> usize {
    match places.get(key) {
        Some(place) => *place,
        None => NOWHERE,
    }
}

// Keeps a place for the key, if there is room.
fn keep(places: &mut [usize], key: usize, place: usize) {
    if let Some(old) = places.get_mut(key) {
        *old = place;
    }
}

// A key that heads with the same low end share.
fn low_key(head: &Ctor) -> usize {
    match head {
        Ctor::Numbers(range) => end_key(&range.low()),
        Ctor::Text(text) => text.len() % KEYS,
        _ => 0,
    }
}

// A key that heads with the same high end share.
fn high_key(head: &Ctor) -> usize {
    match head {
        Ctor::Numbers(range) => end_key(&range.high()),
        _ => low_key(head),
    }
}

// A key that equal ends share.
fn end_key(end: &End) -> usize {
    match end {
        End::Free => KEYS - 1,
        End::At(n) => (n.size % 512) as usize,
    }
}
