//! Consumes what belongs to a stream behind the height that ended its image.

ghost use Rattle.std.specs.Prelude.{◌≡◌, IfSome, None};
ghost use Rattle.libt85.specs.DecoderRest.{HasEntity, LacksEntity, RestTaken, ends_late, rest_call};

use crate::decoder::{ENDED, T85Decoder, VERSION};
use crate::status::NOT_BEGUN;
use t85_core::marker_at;

/// The number of bytes in an empty stripe data entity.
const ENTITY_LEN: usize = 2;

const ESC: u8 = 0xff;

/// The decoder needs more bytes.
const MORE: u8 = 62;

/// Consumes what still belongs to the stream, after `t85_decode_bytes` has returned 0: the empty stripe data entity
/// behind a height (NEWLEN) that followed the last stripe, if there is one. `bytes` are those that were not consumed
/// yet, and those that follow.
///
/// Returns 0 if nothing more belongs to the stream; 62 if more bytes are needed, and then none was consumed: a last byte
/// FF is to be passed again. Returns the status with which the decoder has ended, if that is not 0, and 53 if it has not
/// ended; then nothing is consumed or changed.
///
/// `taken` is the number of bytes consumed.
#[unsafe(no_mangle)]
pub extern "C" fn t85_decode_rest(decoder: &mut T85Decoder, bytes: &[u8], taken: &mut usize) -> u8
    ensures { RestTaken decoder.old decoder.new (rest_call bytes.now taken.new result) }
{
    *taken = 0;
    if decoder.version != VERSION || decoder.next != ENDED {
        return NOT_BEGUN;
    }
    if decoder.status != 0 || !decoder.ends_late() {
        return decoder.status;
    }
    match entity_len(bytes) {
        Some(len) => {
            decoder.numbers.waits = 0;
            *taken = len;
            0
        }
        None => MORE,
    }
}

impl T85Decoder {
    /// Whether a height behind the last stripe ended the image, and the bytes behind it are not known yet.
    fn ends_late(&self) -> bool
        ensures { result ≡ ends_late self.now }
    {
        self.numbers.is_open != 0 && self.numbers.waits != 0 && self.held_len == 0
    }
}

/// The length of the empty stripe data entity at the beginning of these bytes: 0 if they begin with others, and none if
/// they are too few to show it.
fn entity_len(bytes: &[u8]) -> Option<usize>
    ensures some { IfSome result (HasEntity bytes.now) }
    ensures none { result ≡ None → LacksEntity bytes.now }
{
    match marker_at(bytes) {
        Some(_) => Some(ENTITY_LEN),
        None => match bytes {
            [] => None,
            [ESC] => None,
            _ => Some(0),
        },
    }
}
