//! Writes marker segments and end markers (T.82, 6.2).

ghost use Rattle.std.specs.Prelude.{◌<◌, ◌+◌, ◌^◌, length, ◌++◌};
ghost use Rattle.t85_core.specs.Grammar.{Move, Comment, segment_bytes, marker_bytes, NewLength};
ghost use Rattle.t85_core.specs.RowSink.{PutsBytes};
ghost use Rattle.t85_core.specs.Private.Written.{ending_of};

use crate::fault::Fault;
use crate::output_buffer::ByteTarget;
use crate::segments::{ATMOVE, COMMENT, ESCAPE, NEWLEN, SDNORM, SDRST};
use byteorder::{BigEndian, ByteOrder};

/// Writes a COMMENT segment.
pub fn write_comment<P: ByteTarget>(text: &[u8], target: &mut P) -> Result<(), Fault>
    requires fits { length text.now < 2 ^ 32 }
    ensures { PutsBytes (segment_bytes (Comment text.now)) (P.view target.old) (P.view target.new)
        result }
{
    let mut head = [ESCAPE, COMMENT, 0, 0, 0, 0];
    BigEndian::write_u32(&mut head[2..], text.len() as u32);
    target.put(&head)?;
    target.put(text)
}

/// Writes an ATMOVE segment for row 0 of a stripe.
pub fn write_move<P: ByteTarget>(offset: u8, target: &mut P) -> Result<(), Fault>
    ensures { PutsBytes (segment_bytes (Move 0 offset)) (P.view target.old) (P.view target.new)
        result }
{
    target.put(&[ESCAPE, ATMOVE, 0, 0, 0, 0, offset, 0])
}

/// Writes the end marker of a stripe: SDRST with a reset, otherwise SDNORM.
pub fn write_marker<P: ByteTarget>(reset: bool, target: &mut P) -> Result<(), Fault>
    ensures { PutsBytes (marker_bytes reset) (P.view target.old) (P.view target.new) result }
{
    target.push(ESCAPE)?;
    target.push(if reset { SDRST } else { SDNORM })
}

/// Writes what follows the last stripe of an image of this height, given the announced height.
pub fn write_ending<P: ByteTarget>(
    height: u32,
    announced: u32,
    reset: bool,
    target: &mut P,
) -> Result<(), Fault>
    ensures { PutsBytes (ending_of announced reset height) (P.view target.old) (P.view target.new)
        result }
{
    if height < announced {
        write_new_height(height, reset, target)
    } else {
        Ok(())
    }
}

/// Writes a NEWLEN segment and an empty stripe data entity.
fn write_new_height<P: ByteTarget>(height: u32, reset: bool, target: &mut P) -> Result<(), Fault>
    ensures { PutsBytes (segment_bytes (NewLength height) ++ marker_bytes reset) (P.view target.old)
        (P.view target.new) result }
{
    let mut bytes = [
        ESCAPE,
        NEWLEN,
        0,
        0,
        0,
        0,
        ESCAPE,
        if reset { SDRST } else { SDNORM },
    ];
    BigEndian::write_u32(&mut bytes[2..6], height);
    target.put(&bytes)
}
