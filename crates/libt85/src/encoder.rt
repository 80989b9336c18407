//! An encoder for an image row by row, in a struct that a C caller owns.

ghost use Rattle.std.specs.Prelude.{◌≡◌, ◌≢◌, ◌≤◌, ◌<◌, ◌⊎◌, length, take, Some, []};
ghost use Rattle.std.specs.Int.{div_ceil};
ghost use Rattle.raster_core.specs.Window.{held as rows_of, width_of};
ghost use Rattle.t85_core.specs.Lent.{KeepsWindow, TurnsWindow};
ghost use Rattle.t85_core.specs.States.ByRow.{EndsImage, MayGoOn, TakesNextRow, view_of, lent_to};
ghost use Rattle.t85_core.specs.MostBytes.{most_row_bytes};
ghost use Rattle.t85_core.specs.States.RowCalls.{MayEnd, MayTakeRow};
ghost use Rattle.t85_core.specs.States.RowSteps.{IsGoing, given_row};
ghost use Rattle.libt85.specs.Delivered.{IsEmptyRoom, lending};
ghost use Rattle.libt85.specs.Encoder.{PutsEnd, PutsRow, StartsStream, NamesNext, TellsLeft, TellsRoom, encoder_hold, start_call};

pub mod abort;
pub mod best;
mod coded;
mod judged;
mod stored;

use crate::encoder::judged::judge_start;
use crate::memory::Room;
use crate::options::T85Options;
use pbm_core::row_bytes;
use raster_core::{Window, window_bytes};
use t85_core::{Learning, RowEncoder};

/// The version of `T85Encoder`.
const VERSION: u32 = 1;

/// The sizes in bytes that the caller's struct may have: at least that of `T85Encoder`, at most that of t85.h.
const LEAST: usize = 4664;

const MOST: usize = 5360;
/// The next call: a row or the end, or nothing more.
const ROWS: u32 = 1;

const ENDED: u32 = 2;

/// The state of an encoder, which the caller owns. A call is safe whatever bytes it contains.
#[repr(C)]
#[derive(Drop)]
pub struct T85Encoder {
    pub version: u32,
    /// The next call: `ROWS` or `ENDED`.
    pub next: u32,
    /// The size of the image. Its height is the greatest number of rows.
    pub width: u32,
    pub height: u32,
    // The options, except the comment. A flag is true if it is not 0.
    pub options: u32,
    pub stripe_rows: u32,
    pub most_offset: u32,
    pub announced_height: u32,
    // The fields of `RowNumbers`.
    pub rows: u32,
    pub in_stripe: u32,
    pub span: u32,
    pub bits: u32,
    pub announces_height: u8,
    pub reset: u8,
    pub is_counted: u8,
    pub offset: u8,
    pub is_previous_typical: u8,
    pub has_held: u8,
    pub held: u8,
    pub has_failed: u8,
    /// The place of the last row in the window: 0, 1 or 2.
    pub place: u8,
    /// Whether an offset is named for the stripe that begins next, and which.
    pub has_name: u8,
    pub named: u8,
    pub spare: [u8; 5],
    pub low: u64,
    pub zeros: u64,
    pub ones: u64,
    pub events: u64,
    pub reserved: [u64; 5],
    pub learning: Learning,
}

/// Starts a stream: writes its header and its comment. `size` is the size of the caller's struct, from 4664 to 5360
/// bytes, of which no call uses more than the first 4664. The height is the number of rows or, if a height is announced,
/// the greatest number of rows.
///
/// Returns 0, or the first of these errors that applies, with nothing written or changed: 50 if the struct has another
/// size, or the options another version; 20, 21, 22 or 26 if the options are invalid; 33 if the width or the height is
/// 0; 34 if the width is above 1048576; 23 if the announced height is below the image's; 19 if the window is shorter
/// than `t85_window_bytes` of the width; 18 if `stream` is shorter than 20 bytes plus, for a comment, its length and 6.
///
/// `written` is the number of bytes of `stream` that were written.
#[unsafe(no_mangle)]
pub extern "C" fn t85_encode_start(
    encoder: &mut T85Encoder,
    size: usize,
    width: u32,
    height: u32,
    choice: &T85Options,
    comment: &[u8],
    window: &mut [u8],
    stream: &mut [u8],
    written: &mut usize,
) -> u8
    ensures { StartsStream (start_call size width height choice.now comment.now)
        (encoder_hold encoder.old window.old) (encoder_hold encoder.new window.new)
        (lending stream.old stream.new written.new result) }
{
    *written = 0;
    let (room, bytes) = (stream.len(), window.len());
    let (size, options) = match judge_start(size, width, height, choice, comment, bytes, room) {
        Ok(job) => job,
        Err(status) => return status,
    };
    let needed = window_bytes(width);
    *written = encoder.begin(size, &options, &mut window[..needed], stream);
    0
}

/// Encodes the next row, the first bytes of `row` as the width requires, and writes the bytes of the stream that have
/// become certain.
///
/// Returns 0, or the first of these errors that applies, with nothing written or changed: 53 if the encoder was not
/// initialized; 54 if all rows were passed, or the stream was ended; 55 if the row is shorter than its width; 19 if the
/// window is shorter than `t85_window_bytes` of the width; 18 if `stream` is shorter than `t85_encode_room` says.
///
/// `written` is the number of bytes of `stream` that were written.
#[unsafe(no_mangle)]
pub extern "C" fn t85_encode_row(
    encoder: &mut T85Encoder,
    row: &[u8],
    window: &mut [u8],
    stream: &mut [u8],
    written: &mut usize,
) -> u8
    ensures { PutsRow (encoder_hold encoder.old window.old) (encoder_hold encoder.new window.new)
        row.now (lending stream.old stream.new written.new result) }
{
    *written = 0;
    let engine = match encoder.judge_row(row.len(), window.len(), stream.len()) {
        Ok(engine) => engine,
        Err(status) => return status,
    };
    let (long, needed) = (row_bytes(encoder.width), window_bytes(encoder.width));
    *written = encoder.put(engine, &row[..long], &mut window[..needed], stream);
    0
}

/// Names the offset of the adaptive template pixel for the stripe that begins with the next row: 0, or one from 5 (two
/// lines in the template) or 3 to the greatest offset of the options. Without a name, the encoder chooses.
///
/// Returns 0, or the first of these errors that applies, with nothing changed: 53 if the encoder was not initialized; 54
/// if all rows were passed, or the stream was ended; 56 if a stripe is in progress; 22 if the offset is another.
#[unsafe(no_mangle)]
pub extern "C" fn t85_encode_offset(encoder: &mut T85Encoder, offset: u8) -> u8
    ensures { NamesNext encoder.old encoder.new offset result }
{
    let engine = match encoder.judge_name(offset) {
        Ok(engine) => engine,
        Err(status) => return status,
    };
    encoder.name(engine, offset);
    0
}

/// Ends the stream, with a new height if fewer rows were passed than announced.
///
/// Returns 0, or the first of these errors that applies, with nothing written or changed: 53 if the encoder was not
/// initialized; 54 if the stream has been ended already; 36 if no row was passed, or if rows are missing and no height
/// was announced; 19 if the window is shorter than `t85_window_bytes` of the width; 18 if `stream` is shorter than
/// `t85_encode_room` says.
///
/// `written` is the number of bytes of `stream` that were written.
#[unsafe(no_mangle)]
pub extern "C" fn t85_encode_end(
    encoder: &mut T85Encoder,
    window: &mut [u8],
    stream: &mut [u8],
    written: &mut usize,
) -> u8
    ensures { PutsEnd (encoder_hold encoder.old window.old) (encoder_hold encoder.new window.new)
        (lending stream.old stream.new written.new result) }
{
    *written = 0;
    let engine = match encoder.judge_end(window.len(), stream.len()) {
        Ok(engine) => engine,
        Err(status) => return status,
    };
    let needed = window_bytes(encoder.width);
    *written = encoder.end(engine, &mut window[..needed], stream);
    0
}

/// Returns how many more rows are accepted: 0 if the encoder was not initialized, or the stream was ended.
#[unsafe(no_mangle)]
pub extern "C" fn t85_encode_rows_left(encoder: &T85Encoder) -> u32
    ensures left { TellsLeft encoder.now result }
    ensures none { (encoder.now.version ≢ 1) ⊎ (encoder.now.next ≢ 1) → result ≡ 0 }
{
    if encoder.version != VERSION || encoder.next != ROWS {
        return 0;
    }
    encoder.height.saturating_sub(encoder.rows)
}

/// Returns a buffer size in bytes that is enough for the next call, whether for a row or for the end: 0 if the encoder
/// was not initialized, or the stream was ended.
#[unsafe(no_mangle)]
pub extern "C" fn t85_encode_room(encoder: &T85Encoder) -> u64
    ensures room { TellsRoom encoder.now result }
    ensures none { (encoder.now.version ≢ 1) ⊎ (encoder.now.next ≢ 1) → result ≡ 0 }
{
    match encoder.engine() {
        Ok(engine) => engine.most_row_bytes(),
        Err(_) => 0,
    }
}

/// Encodes a row into a buffer that is large enough for everything that it may write, so that no write fails.
fn put_in(
    engine: &mut RowEncoder,
    row: &[u8],
    window: &mut Window<'_>,
    learning: &mut Learning,
    room: &mut Room<'_>,
)
    requires width { width_of window.old ≡ engine.old.size.width }
    requires whole { length row.now ≡ div_ceil engine.old.size.width 8 }
    requires ready { MayTakeRow engine.old }
    requires going { IsGoing engine.old }
    requires room { IsEmptyRoom room.old }
    ensures put { most_row_bytes engine.old ≤ length room.new.bytes.now → MayGoOn engine.new ×
        TurnsWindow window.old window.new × TakesNextRow (given_row engine.old row.now)
        (lent_to engine.old learning.old (rows_of window.old) (Some []))
        (lent_to engine.new learning.new (rows_of window.new)
        (Some (take room.new.len room.new.bytes.now))) }
    ensures window { KeepsWindow window.old window.new }
    ensures same_reference { room.new.bytes.ghost_name ≡ room.old.bytes.ghost_name }
{
    engine.put_row(row, window, learning, room).is_ok();
}

/// Ends a stream in a buffer that is large enough for everything that this may write, so that no write fails.
fn end_in(
    engine: &mut RowEncoder,
    window: &mut Window<'_>,
    learning: &mut Learning,
    room: &mut Room<'_>,
)
    requires width { width_of window.old ≡ engine.old.size.width }
    requires ready { MayEnd engine.old × MayGoOn engine.old }
    requires going { IsGoing engine.old }
    requires room { IsEmptyRoom room.old }
    ensures ended { most_row_bytes engine.old ≤ length room.new.bytes.now →
        EndsImage (view_of engine.old learning.old) (rows_of window.old) (Some [])
        (Some (take room.new.len room.new.bytes.now)) }
    ensures window { KeepsWindow window.old window.new }
    ensures same_reference { room.new.bytes.ghost_name ≡ room.old.bytes.ghost_name }
{
    engine.finish(window, learning, room).is_ok();
}

const _: () = prove!(std::mem::size_of::<T85Encoder>() == LEAST);
