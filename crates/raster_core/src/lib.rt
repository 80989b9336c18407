//! Encodes and decodes the rows of a raster, and finds the offset of the adaptive pixel that would have served a stripe
//! best.
//!
//! The image is the lowest-resolution layer of ITU-T T.82, within the limits of ITU-T T.85. Every event is a pixel in
//! one of 1,024 contexts of `qm_core`.
#![tactic(auto)]

mod agreement;
mod bytes;
mod choice;
mod columns;
mod context;
mod counted;
mod decode;
mod encode;
mod lanes;
mod narrow;
mod place;
mod row_byte;
mod rows;
mod shape;
mod tally;
mod uniform;
mod window;
mod words;

pub use choice::Choice;
pub use decode::{decode_row, go_on_row, skip_rows};
pub use encode::{encode_again, encode_row};
pub use place::{RowPlace, RowPlaceNumbers};
pub use shape::{Kept, Shape};
pub use tally::Tally;
pub use window::{Window, current_row, window_bytes};
