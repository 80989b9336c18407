//! Counts the streams of a test by their features.

use crate::random::add;
use pbm_core::trial::Pieces;
use t85_core::{Fault, summarize};

/// Counts streams by their features, so that a test can check what it tried.
#[derive(Clone, Copy, Debug)]
pub struct Kinds {
    pub streams: u32,
    /// Streams of more than one stripe.
    pub striped: u32,
    /// Streams in which the adaptive pixel moves.
    pub moved: u32,
    pub commented: u32,
    /// Streams whose height is less than the header's.
    pub lowered: u32,
}

impl Kinds {
    pub const NONE: Kinds = Kinds {
        streams: 0,
        striped: 0,
        moved: 0,
        commented: 0,
        lowered: 0,
    };

    /// Counts this stream.
    pub fn count(&mut self, stream: &[u8]) -> Result<(), Fault> {
        let found = summarize(&mut Pieces::new(stream, 4096, None))?;
        add(&mut self.streams, true);
        add(&mut self.striped, found.entities > 1);
        add(&mut self.moved, found.moves > 0);
        add(&mut self.commented, found.comments > 0);
        add(&mut self.lowered, found.height < found.announced_height);
        Ok(())
    }
}
