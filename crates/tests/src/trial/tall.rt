//! Makes an image with more rows than a buffer holds, and its stream.

use std::alloc::{AllocError, Global};

/// An image of 6,000 rows of one pixel, and its code in as many stripes, each of which ends in a reset: so each is the
/// code of a single black or white pixel.
#[derive(Drop)]
pub struct Tall {
    pub rows: String,
    /// The stream, as hexadecimal digits.
    pub hex: String,
}

impl Tall {
    pub const SIZE: &'static str = "1 6000";

    pub fn new(alloc: Global) -> Result<Tall, AllocError> {
        let mut rows = String::new(alloc);
        let mut hex = String::from_str(alloc, "00000100 00000001 00001770 00000001 00 0000 08")?;
        for row in 0..6000u32 {
            let (pixel, code) = if row % 3 == 0 || row % 7 == 2 {
                ("80", "E0FF03")
            } else {
                ("00", "FF03")
            };
            rows.push_str(pixel)?;
            hex.push_str(code)?;
        }
        Ok(Tall { rows, hex })
    }
}
