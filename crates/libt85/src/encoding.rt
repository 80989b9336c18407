//! Encodes an image in memory to a stream in memory.

ghost use Rattle.std.specs.Prelude.{◌≡◌, ◌≤◌, ◌<◌, None, Some, length, false, MatchResult, IfOk};
ghost use Rattle.std.specs.Int.{div_ceil};
ghost use Rattle.t85_core.specs.Options.{settings_of};
ghost use Rattle.t85_core.specs.Jbg.{is_low};
ghost use Rattle.libt85.specs.Bound.{IsBound, bound_told, comment_length};
ghost use Rattle.libt85.specs.Decoded.{window_bytes as window_of};
ghost use Rattle.libt85.specs.Encoded.{EncodesImage, DeliversCode, asked, encoding_call, refusal_told, settings_chosen};
ghost use Rattle.libt85.specs.Delivered.{IsEmptyRoom, lending, lined};

use crate::decoding::answer_status;
use crate::lined_source::LinedSource;
use crate::memory::Room;
use crate::options::{T85Options, accept};
use crate::status::{FULL, OTHER_VERSION, SHORT_STRIDE, TOO_WIDE, ZERO_SIZE};
use pbm_core::{Size, row_bytes};
use raster_core::{Window, window_bytes};
use t85_core::laws::{code_denotes, lengths};
use t85_core::{Fault, Options, encode_rows};

/// The version of `T85Options`.
pub const VERSION: u32 = 1;
/// The greatest width of an image.
pub const MOST_WIDTH: u32 = 1_048_576;

/// Encodes an image. Row y begins at byte `y * stride`; a row has one bit per pixel, the first pixel in the most
/// significant bit, in a whole number of bytes. Bits after the last pixel are ignored.
///
/// Returns 0, or the first of these errors that applies: 50 if the options have another version; 20, 21, 22 or 26 if
/// they are invalid; 33 if the width or the height is 0; 34 if the width is above 1048576; 51 if the stride is shorter
/// than a row; 23 if the announced height is below the image's; 19 if the window is shorter than `t85_window_bytes` of
/// the width; 36 if rows are missing, and then a prefix of the stream is written that includes each stripe whose rows
/// are all present. Returns 18 instead if the output is longer than `stream`, which is then filled with a prefix.
///
/// `written` is the number of bytes of `stream` that were written. The contents of `stream` after them, and of the
/// window, are unspecified.
#[unsafe(no_mangle)]
pub extern "C" fn t85_encode(
    width: u32,
    height: u32,
    rows: &[u8],
    stride: usize,
    choice: &T85Options,
    comment: &[u8],
    window: &mut [u8],
    stream: &mut [u8],
    written: &mut usize,
) -> u8
    ensures { EncodesImage (encoding_call choice.now comment.now width height stride
        (length window.old)) rows.now (lending stream.old stream.new written.new result) }
{
    *written = 0;
    let room = window.len();
    let (size, options) = match judge(width, height, stride, choice, comment, room) {
        Ok(job) => job,
        Err(status) => return status,
    };
    let bytes = window_bytes(width);
    fill_stream(
        size,
        rows,
        stride,
        &options,
        &mut window[..bytes],
        stream,
        written,
    )
}

/// Returns an upper bound on the length of a stream of this size with these options and a comment of this length; or 0
/// if `t85_encode` would reject the size, the rows per stripe or the length of the comment.
#[unsafe(no_mangle)]
pub extern "C" fn t85_encode_bound(
    width: u32,
    height: u32,
    choice: &T85Options,
    comment_len: usize,
) -> u64
    ensures told { result ≡ bound_told choice.now width height
        (comment_length choice.now comment_len) }
    ensures enough { IsBound choice.now width height comment_len result }
{
    // The proof uses these laws about streams.
    lengths();
    let comment = if choice.has_comment { comment_len } else { 0 };
    if width == 0
        || height == 0
        || width > MOST_WIDTH
        || choice.stripe_rows == 0
        || comment > 0xffff_ffff
    {
        return 0;
    }
    let stripes = height.div_ceil(choice.stripe_rows) as u64;
    let pixels = height as u64 * (width as u64 + 1);
    34 + comment as u64 + 14 * stripes + 4 * pixels
}

/// The size and the options, or the status of the first error.
pub fn judge<'a>(
    width: u32,
    height: u32,
    stride: usize,
    choice: &T85Options,
    comment: &'a [u8],
    window: usize,
) -> Result<(Size, Options<'a>), u8>
    ensures judged { MatchResult result
        (λ _. refusal_told choice.now comment.now width height stride window ≡ None)
        (λ status. refusal_told choice.now comment.now width height stride window ≡ Some status) }
    ensures width { IfOk result (λ job. job.0.width ≡ width) }
    ensures height { IfOk result (λ job. job.0.height ≡ height) }
    ensures held { IfOk result (λ job. settings_of job.1 ≡ settings_chosen choice.now comment.now) }
    ensures apart { IfOk result (λ _. div_ceil width 8 ≤ stride) }
    ensures not_low { IfOk result (λ job. is_low (settings_of job.1) height ≡ false) }
    ensures enough { IfOk result (λ _. window_of width ≤ window) }
{
    if choice.version != VERSION {
        return Err(OTHER_VERSION);
    }
    let options = match accept(choice, comment) {
        Ok(options) => options,
        Err(fault) => return Err(fault.number()),
    };
    if width == 0 || height == 0 {
        return Err(ZERO_SIZE);
    }
    if width > MOST_WIDTH {
        return Err(TOO_WIDE);
    }
    if stride < row_bytes(width) {
        return Err(SHORT_STRIDE);
    }
    if choice.announces_height && choice.announced_height < height {
        return Err(Fault::AnnouncedLow.number());
    }
    if window < window_bytes(width) {
        return Err(Fault::OutOfMemory.number());
    }
    Ok((Size { width, height }, options))
}

/// Encodes rows in memory to a stream in memory, and returns the status.
fn fill_stream(
    size: Size,
    rows: &[u8],
    stride: usize,
    options: &Options<'_>,
    window: &mut [u8],
    stream: &mut [u8],
    written: &mut usize,
) -> u8
    requires window { length window.old ≡ window_of size.width }
    requires apart { div_ceil size.width 8 ≤ stride }
    requires not_low { is_low (settings_of options.now) size.height ≡ false }
    ensures { DeliversCode (asked (settings_of options.now) size.width size.height)
        (lined size.height (div_ceil size.width 8) stride rows.now) stream.new written.new result }
{
    let mut room = Room::new(stream);
    let status = write_stream(size, rows, stride, options, window, &mut room);
    *written = room.len;
    status
}

/// Encodes rows in memory to a stream in a `Room`, and returns the status.
fn write_stream(
    size: Size,
    rows: &[u8],
    stride: usize,
    options: &Options<'_>,
    window: &mut [u8],
    room: &mut Room<'_>,
) -> u8
    requires window { length window.old ≡ window_of size.width }
    requires apart { div_ceil size.width 8 ≤ stride }
    requires not_low { is_low (settings_of options.now) size.height ≡ false }
    requires room { IsEmptyRoom room.old }
    ensures writes { DeliversCode (asked (settings_of options.now) size.width size.height)
        (lined size.height (div_ceil size.width 8) stride rows.now) room.new.bytes.now
        room.new.len result }
    ensures same_reference { room.new.bytes.ghost_name ≡ room.old.bytes.ghost_name }
{
    // The proof uses these laws about streams.
    code_denotes();
    let mut lines = Window::over(window, size.width);
    let mut source = LinedSource::new(rows, size.height, row_bytes(size.width), stride);
    let answer = encode_rows(size, options, &mut lines, &mut source, room);
    if room.spilled.is_some() {
        return FULL;
    }
    answer_status(&answer)
}
