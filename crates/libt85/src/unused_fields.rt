//! The fields of a header that have no effect on an image of one plane without layers.

ghost use Rattle.libt85.specs.UnusedFields.{UnusedSet, unused};

use crate::opened::read_header;
use t85_core::laws::headers;

/// TPDON and DPON in the options byte.
const UNUSED_BITS: u8 = 0x14;

/// Sets the fields of a stream's header that have no effect on its image: MY (byte 17), the order (byte 18), and the
/// bits TPDON (0x10) and DPON (0x04) of the options (byte 19). The other bits of `options` are ignored.
///
/// Returns 0; or the first of these errors that applies, with nothing changed: 1 to 8 if the header is rejected; 2 if
/// `order` is above 15; 8 if `options` has DPON, and the header has DPPRIV (0x02) without DPLAST (0x01).
#[unsafe(no_mangle)]
pub extern "C" fn t85_set_unused_fields(stream: &mut [u8], my: u8, order: u8, options: u8) -> u8
    ensures { UnusedSet stream.old stream.new (unused my order options) result }
{
    // The proof uses these laws about headers.
    headers();
    let header = match read_header(stream) {
        Ok(header) => header,
        Err(fault) => return fault.number(),
    };
    let mut bytes = [0; 20];
    bytes.copy_from_slice(&stream[..20]);
    bytes[17] = my;
    bytes[18] = order;
    bytes[19] = header.options & !UNUSED_BITS | options & UNUSED_BITS;
    match read_header(&bytes) {
        Ok(_) => {
            stream[..20].copy_from_slice(&bytes);
            0
        }
        Err(fault) => fault.number(),
    }
}
