//! Ends a stream that cannot be completed.

ghost use Rattle.libt85.specs.Delivered.{lending};
ghost use Rattle.libt85.specs.EncoderAbort.{AbortsStream};

use crate::encoder::{ENDED, T85Encoder, VERSION};
use crate::status::FULL;

/// ESC and ABORT, the marker of an aborted image (T.82, 6.2.5).
const ABORT_MARKER: [u8; 2] = [0xff, 0x04];

/// Ends a stream whose remaining rows cannot be passed, with the marker ABORT: two bytes, FF 04. It may be called as
/// long as the stream was begun and not ended.
///
/// Returns 0, or the first of these errors that applies, with nothing written or changed: 53 if the encoder was not
/// initialized; 54 if the stream has been ended already; 18 if `stream` is shorter than two bytes.
///
/// `written` is the number of bytes of `stream` that were written.
#[unsafe(no_mangle)]
pub extern "C" fn t85_encode_abort(
    encoder: &mut T85Encoder,
    stream: &mut [u8],
    written: &mut usize,
) -> u8
    ensures { AbortsStream encoder.old encoder.new
        (lending stream.old stream.new written.new result) }
{
    *written = 0;
    match encoder.engine() {
        Ok(_) => {}
        Err(status) => return status,
    }
    if stream.len() < ABORT_MARKER.len() {
        return FULL;
    }
    stream[..2].copy_from_slice(&ABORT_MARKER);
    *written = 2;
    encoder.version = VERSION;
    encoder.next = ENDED;
    0
}
