//! Cuts a stream into pieces.

use crate::random::Random;

/// How a stream is cut into pieces.
#[derive(Drop)]
pub enum Cuts<'a> {
    /// At random.
    Random(&'a mut Random),
    /// After each byte.
    Each,
    /// After each byte whose bit is set, from the lowest.
    After(u32),
}

impl Cuts<'_> {
    /// The length of the next piece, at least one.
    pub fn next(&mut self) -> usize {
        match self {
            Cuts::Random(random) => match random.between(0, 3) {
                0 => 1,
                1 => random.between(1, 3) as usize,
                2 => random.between(1, 12) as usize,
                _ => random.between(1, 100) as usize,
            },
            Cuts::Each => 1,
            Cuts::After(places) => {
                let size = places.trailing_zeros() + 1;
                *places = places.checked_shr(size).unwrap_or(0);
                size as usize
            }
        }
    }

    /// Whether the end is signalled by itself, after all bytes were passed, and not with the last of them.
    pub fn ends_by_itself(&mut self) -> bool {
        match self {
            Cuts::Random(random) => random.is_one_in(2),
            Cuts::Each => true,
            Cuts::After(places) => places.count_ones() % 2 == 0,
        }
    }
}
