//! Decodes a stream in memory to an image in memory.

ghost use Rattle.std.specs.Prelude.{◌≡◌, ◌≤◌, None, length};
ghost use Rattle.t85_core.specs.Options.{fields_of};
ghost use Rattle.libt85.specs.Decoded.{DecodesImage, DeliversText, window_bytes as window_of};
ghost use Rattle.libt85.specs.Delivered.{answer_status, lending};

use crate::memory::Room;
use crate::opened::open;
use crate::status::FULL;
use devices::WriteFault;
use pbm_core::{Size, write_header};
use raster_core::{Window, window_bytes};
use t85_core::laws::outcomes;
use t85_core::{Fault, Header, decode_rows};

/// The status for a result of the engine.
pub fn answer_status(answer: &Result<(), Fault>) -> u8
    ensures { result ≡ answer_status answer.now }
{
    match answer {
        Ok(()) => 0,
        Err(fault) => fault.number(),
    }
}

/// Decodes a stream to a raw PBM of at most `max_rows` rows. The stream may give its height late.
///
/// Returns 0, or the first of these errors that applies: 1 to 8 if the header is rejected; 24 if the image has more
/// than `max_rows` rows; 19 if the window is shorter than `t85_window_bytes` of the width; 9 to 15 if the stream is
/// broken, and then the PBM header and the rows that the bytes before the error determine are written. Returns 18 if
/// the output is longer than `image`, which is then filled with a prefix of it.
///
/// `written` is the number of bytes of `image` that were written. The contents of `image` after them, and of the
/// window, are unspecified.
#[unsafe(no_mangle)]
pub extern "C" fn t85_decode(
    stream: &[u8],
    max_rows: u32,
    window: &mut [u8],
    image: &mut [u8],
    written: &mut usize,
) -> u8
    ensures { DecodesImage stream.now max_rows (length window.old)
        (lending image.old image.new written.new result) }
{
    *written = 0;
    let opened = match open(stream) {
        Ok(opened) => opened,
        Err(fault) => return fault.number(),
    };
    if opened.height > max_rows {
        return Fault::TooManyRows.number();
    }
    let bytes = window_bytes(opened.header.xd);
    if window.len() < bytes {
        return Fault::OutOfMemory.number();
    }
    fill_image(
        &opened.header,
        opened.height,
        opened.body,
        &mut window[..bytes],
        image,
        written,
    )
}

/// Decodes a body to a PBM in memory, and returns the status.
fn fill_image(
    header: &Header,
    height: u32,
    body: &[u8],
    window: &mut [u8],
    image: &mut [u8],
    written: &mut usize,
) -> u8
    requires window { length window.old ≡ window_of header.now.xd }
    requires from { 1 ≤ height }
    requires to { height ≤ header.now.yd }
    ensures { DeliversText (fields_of header.now) height body.now image.new written.new result }
{
    let mut room = Room::new(image);
    let status = write_image(header, height, body, window, &mut room);
    *written = room.len;
    status
}

/// Decodes a body to a PBM in a `Room`, and returns the status.
fn write_image(
    header: &Header,
    height: u32,
    body: &[u8],
    window: &mut [u8],
    room: &mut Room<'_>,
) -> u8
    requires window { length window.old ≡ window_of header.now.xd }
    requires from { 1 ≤ height }
    requires to { height ≤ header.now.yd }
    requires fresh { room.old.failures ≡ 0 }
    requires empty { room.old.len ≡ 0 }
    requires unspilled { room.old.spilled ≡ None }
    ensures writes { DeliversText (fields_of header.now) height body.now room.new.bytes.now
        room.new.len result }
    ensures same_reference { room.new.bytes.ghost_name ≡ room.old.bytes.ghost_name }
{
    // The proof uses these laws about streams.
    outcomes();
    let mut lines = Window::over(window, header.xd);
    let size = Size {
        width: header.xd,
        height,
    };
    match write_header(room, size) {
        Ok(()) => {}
        Err(WriteFault) => return FULL,
    }
    let answer = decode_rows(header, height, &mut lines, body, room);
    if room.spilled.is_some() {
        return FULL;
    }
    answer_status(&answer)
}
