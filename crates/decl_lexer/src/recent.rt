//! Where names were found of late.

/// The numbers of names that were looked up of late, each where its first and last byte say. A number is no more than a
/// hint: whoever takes it compares the name.
#[derive(Drop)]
pub struct Recent {
    numbers: [u32; 256],
}

impl Recent {
    /// No name was looked up.
    pub fn new() -> Recent {
        Recent { numbers: [0; 256] }
    }

    /// The number that stands at a place.
    pub fn number(&self, place: u8) -> u32 {
        self.numbers[place as usize]
    }

    /// Puts a number at a place.
    pub fn put(&mut self, place: u8, number: u32) {
        self.numbers[place as usize] = number;
    }
}

/// The place of a name, by its first and last byte: names that have both in common share a place. Names in small letters
/// whose first letters differ by at most eight share one only so, since the factor is above the 26 letters.
pub fn place_of(text: &str) -> u8 {
    let bytes = text.as_bytes();
    match (bytes.first(), bytes.last()) {
        (Some(first), Some(last)) => first.wrapping_mul(28).wrapping_add(*last),
        _ => 0,
    }
}
