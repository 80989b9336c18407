//! The actual height of a stream, in its header.

ghost use Rattle.libt85.specs.SetHeight.{HeightSet};

use crate::opened::open;
use byteorder::{BigEndian, ByteOrder};
use t85_core::laws::{headers, heights};

/// Writes the actual height of a stream into its header (YD, bytes 8 to 11): that of a valid NEWLEN, which only a
/// stream with VLENGTH has, or else the height that the header has already. The stream still denotes the same image, and
/// its parts are not checked.
///
/// Returns 0; or 1 to 8 if the header is rejected, and then nothing is changed.
#[unsafe(no_mangle)]
pub extern "C" fn t85_set_height(stream: &mut [u8]) -> u8
    ensures { HeightSet stream.old stream.new result }
{
    // The proof uses these laws about headers and heights.
    headers();
    heights();
    let height = match open(stream) {
        Ok(opened) => opened.height,
        Err(fault) => return fault.number(),
    };
    BigEndian::write_u32(&mut stream[8..12], height);
    0
}
