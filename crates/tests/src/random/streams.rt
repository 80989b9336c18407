//! Makes random streams, and damages them.

use crate::random::{Choices, Image, Ink, Random, encode_rows};
use std::alloc::Global;
use std::test::Fail;

/// The height in a stream's header.
#[derive(Clone, Copy, Debug, PartialEq, Eq)]
pub enum Heights {
    /// The image's.
    Fixed,
    /// An announced one, at least the image's.
    Announced,
    /// Either of them.
    Either,
}

/// The number of bytes of a stream before its first marker segment.
pub const HEADER: usize = 20;

impl Random {
    /// The stream of a small image.
    pub fn stream(&mut self, alloc: Global, heights: Heights) -> Result<Vec<u8>, Fail> {
        let image = Image::random(alloc, self)?;
        let mut choices = Choices::random(alloc, self)?;
        let announces = match heights {
            Heights::Fixed => false,
            Heights::Announced => true,
            Heights::Either => self.is_one_in(2),
        };
        if announces {
            choices.announced = Some(self.height_from(image.size.height));
        }
        let options = choices.options()?;
        Ok(encode_rows(alloc, image.size, &image.rows, &options)?.bytes)
    }

    /// Changes, inserts or removes one to three bytes after the header, and occasionally inverts VLENGTH.
    pub fn damage(&mut self, stream: &mut Vec<u8>) -> Result<(), Fail> {
        for _ in 0..self.between(1, 3) {
            self.damage_byte(stream)?;
        }
        if self.is_one_in(8) {
            if let Some(options) = stream.get_mut(19) {
                *options ^= 0x20;
            }
        }
        Ok(())
    }

    fn damage_byte(&mut self, stream: &mut Vec<u8>) -> Result<(), Fail> {
        let place = HEADER.saturating_add(self.below(stream.len().saturating_sub(HEADER)));
        let byte = match self.between(0, 5) {
            0 => 0xFF,
            1 => 0,
            2 => self.between(2, 7) as u8,
            _ => self.byte(Ink::Half),
        };
        if place >= stream.len() {
            return Ok(());
        }
        match self.between(0, 2) {
            0 => stream[place] = byte,
            1 => stream.insert(place, byte)?,
            _ => {
                stream.remove(place);
            }
        }
        Ok(())
    }
}
