//! The engine for C callers: whole images, images row by row, and streams in pieces, in caller-supplied memory.
//!
//! No function keeps a pointer or allocates memory, and none has effects besides what it writes to its arguments.
#![tactic(auto)]

mod choice;
mod decoder;
mod decoding;
mod decoding_rows;
mod encoder;
mod encoding;
mod facts;
mod header;
pub mod laws;
mod lined_sink;
mod lined_source;
mod memory;
mod message;
mod opened;
mod options;
mod parts;
mod pbm;
mod raw_header;
mod set_height;
mod status;
mod summary;
#[cfg(test)]
mod tests;
mod unused_fields;

ghost use Rattle.std.specs.Prelude.{◌≡◌};
ghost use Rattle.libt85.specs.Decoded.{window_bytes};

pub use crate::choice::{T85Choice, t85_choice_offset, t85_choice_row, t85_choice_start};
pub use crate::decoder::again::t85_decode_again;
pub use crate::decoder::rest::t85_decode_rest;
pub use crate::decoder::{
    T85Decoder, t85_decode_bytes, t85_decode_certain, t85_decode_end, t85_decode_height,
    t85_decode_start,
};
pub use crate::decoding::t85_decode;
pub use crate::decoding_rows::t85_decode_rows;
pub use crate::encoder::abort::t85_encode_abort;
pub use crate::encoder::best::t85_best_offset;
pub use crate::encoder::{
    T85Encoder, t85_encode_end, t85_encode_offset, t85_encode_room, t85_encode_row,
    t85_encode_rows_left, t85_encode_start,
};
pub use crate::encoding::{t85_encode, t85_encode_bound};
pub use crate::facts::{T85Facts, t85_stream_facts};
pub use crate::header::{T85Header, t85_header};
pub use crate::message::t85_message;
pub use crate::options::T85Options;
pub use crate::parts::{T85Part, t85_next_part};
pub use crate::pbm::{T85Pbm, t85_pbm_end, t85_pbm_header, t85_pbm_row, t85_pbm_start};
pub use crate::raw_header::{T85RawHeader, t85_raw_header};
pub use crate::set_height::t85_set_height;
pub use crate::summary::{T85Summary, t85_info};
pub use crate::unused_fields::t85_set_unused_fields;

/// Returns the version of the library: one byte each for the major number, the minor number and the patch.
#[unsafe(no_mangle)]
pub extern "C" fn t85_version() -> u32
    ensures { result ≡ 0x01_00_00 }
{
    0x01_00_00
}

/// Returns the size in bytes of the window for images of this width.
#[unsafe(no_mangle)]
pub extern "C" fn t85_window_bytes(width: u32) -> usize
    ensures { result ≡ window_bytes width }
{
    raster_core::window_bytes(width)
}
