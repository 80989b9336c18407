//! Counts the cuts of streams by their end.

use crate::random::add;
use t85_core::{Fault, Header, Outcome};

/// The number of cuts of streams by their end.
#[derive(Clone, Copy, Debug)]
pub struct Ends {
    pub cuts: u32,
    pub done: u32,
    /// Images of fewer rows than the header announces.
    pub lower: u32,
    pub early: u32,
    pub broken: u32,
}

impl Ends {
    pub const NONE: Ends = Ends {
        cuts: 0,
        done: 0,
        lower: 0,
        early: 0,
        broken: 0,
    };

    pub fn count(&mut self, header: &Header, end: Outcome) {
        add(&mut self.cuts, true);
        add(&mut self.done, matches!(&end, Outcome::Done(_)));
        add(
            &mut self.lower,
            matches!(&end, Outcome::Done(height) if *height < header.yd),
        );
        let early = end == Outcome::Broken(Fault::Truncated);
        add(&mut self.early, early);
        add(
            &mut self.broken,
            !early && matches!(&end, Outcome::Broken(_)),
        );
    }
}
