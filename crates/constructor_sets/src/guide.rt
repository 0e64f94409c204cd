// Where to look for a number among pieces of numbers. The line of all numbers is cut into stretches, about as many as
// there are pieces, and of each stretch it is known how many pieces begin before it. A number is then looked for among the
// few pieces of its stretch. These are hints alone: whoever takes one tests it, so any answer is right, and no contract
// speaks of them.
use crate::Span;
use no_memory::NoMemory;
use pat_context::Ctor;
use range_split::End;
use std::alloc::Global;

// How many pieces are worth a guide.
const MANY: usize = 64;

// The place of zero on the line.
const ZERO: u128 = 1 << 127;

// How many of the pieces begin before each stretch of the line.
#[derive(Drop)]
pub(crate) struct Guide {
    // The place where the first stretch begins.
    start: u128,
    // The places of a stretch share all but so many last bits of their distance from the start.
    bits: u32,
    // For each stretch how many pieces begin before it.
    firsts: Vec<u32>,
    // How many pieces there are.
    pieces: usize,
}

impl Guide {
    // A guide to the pieces, which has no stretch where these are few.
    pub(crate) fn new(alloc: Global, pieces: &[Ctor]) -> Result<Guide, NoMemory> {
        let (start, bits) = scale_of(pieces);
        let mut guide = Guide {
            start,
            bits,
            firsts: Vec::new(alloc),
            pieces: pieces.len(),
        };
        if MANY <= pieces.len() {
            guide.add_stretches(pieces)?;
        }
        Ok(guide)
    }

    // Counts the pieces before each stretch.
    fn add_stretches(&mut self, pieces: &[Ctor]) -> Result<(), NoMemory> {
        for (count, piece) in pieces.iter().enumerate() {
            let stretch = self.stretch(low_place(piece));
            self.add_up_to(stretch, count)?;
        }
        Ok(())
    }

    // Adds the stretches up to the one given, which are new, and before which so many pieces begin.
    fn add_up_to(&mut self, stretch: usize, count: usize) -> Result<(), NoMemory> {
        for _ in self.firsts.len()..stretch.saturating_add(1) {
            self.firsts.push(count.min(u32::MAX as usize) as u32)?;
        }
        Ok(())
    }

    // The stretch of a place. There are at most so many stretches as the scale tells.
    fn stretch(&self, place: u128) -> usize {
        let distance = place.saturating_sub(self.start) >> self.bits.min(127);
        distance.min(self.pieces.saturating_mul(2) as u128) as usize
    }

    // Between which counts of pieces is the count of those that begin before a place.
    fn counts(&self, place: u128) -> Span {
        if self.firsts.is_empty() {
            return Span {
                first: 0,
                end: self.pieces,
            };
        }
        let stretch = self.stretch(place);
        Span {
            first: self.count(stretch),
            end: self.count(stretch.saturating_add(1)),
        }
    }

    // How many pieces begin before the stretch.
    fn count(&self, stretch: usize) -> usize {
        match self.firsts.get(stretch) {
            Some(count) => *count as usize,
            None => self.pieces,
        }
    }

    // Between which counts is that of the pieces that begin before what the head has.
    pub(crate) fn firsts(&self, head: &Ctor) -> Span {
        self.counts(low_place(head))
    }

    // Between which counts is that of the pieces up to the last that the head has.
    pub(crate) fn ends(&self, head: &Ctor) -> Span {
        self.counts(high_place(head))
    }
}

// Where the first piece begins, and how many last bits of a distance from there are left out, so that there are about as
// many stretches as pieces.
fn scale_of(pieces: &[Ctor]) -> (u128, u32) {
    match (pieces.first(), pieces.last()) {
        (Some(first), Some(last)) => {
            let start = low_place(first);
            let width = low_place(last).saturating_sub(start);
            (
                start,
                bit_count(width).saturating_sub(bit_count(pieces.len() as u128)),
            )
        }
        _ => (0, 0),
    }
}

// How many bits the number has.
fn bit_count(n: u128) -> u32 {
    128u32.saturating_sub(n.leading_zeros())
}

// The place on the line where the head or piece begins.
fn low_place(ctor: &Ctor) -> u128 {
    match ctor {
        Ctor::Numbers(range) => end_place(&range.low(), 0),
        _ => 0,
    }
}

// The place on the line where the head or piece ends.
fn high_place(ctor: &Ctor) -> u128 {
    match ctor {
        Ctor::Numbers(range) => end_place(&range.high(), u128::MAX),
        _ => 0,
    }
}

// The place of an end on the line, on which two numbers beside each other may have one place; that of a free end is given.
fn end_place(end: &End, free: u128) -> u128 {
    match end {
        End::Free => free,
        End::At(n) => {
            if n.negative {
                ZERO.saturating_sub(n.size >> 1)
            } else {
                ZERO.saturating_add(n.size >> 1)
            }
        }
    }
}
