//! A decoder for a stream in pieces, in a struct that a C caller owns.

ghost use Rattle.std.specs.Prelude.{◌≡◌, ◌<◌, ◌*◌, [], false, true};
ghost use Rattle.libt85.specs.Decoder.{Answers, IsAnswered, DecoderIsNotBegun, LacksWindow, ReadsHeader, TellsCertain, bytes_call, more_call, status_told};
ghost use Rattle.libt85.specs.DecoderLimit.{StaysWithinLimit};
ghost use Rattle.libt85.specs.DecoderState.{HasRead, height_of_decoder, hold_of};
ghost use Rattle.libt85.specs.DecoderStart.{IsDecoderBegun};
ghost use Rattle.libt85.specs.declared.decoder.Answer.TheVariants as answer;

pub mod again;
mod header;
mod limit;
pub mod rest;
mod rows;
mod stored;

use crate::status::OTHER_VERSION;
use qm_core::Learned;
use t85_core::{Fault, More, PieceNumbers};

/// The version of `T85Decoder`, and its size in bytes.
const VERSION: u32 = 2;

const SIZE: usize = 1280;
/// The number of bytes in a header.
const HEADER_LEN: usize = 20;
/// The next event: the header, the first row, another row, or nothing more.
const HEADER: u32 = 0;

const FIRST_ROW: u32 = 1;

const ROWS: u32 = 2;

const ENDED: u32 = 3;

/// The state of a decoder, which the caller owns. A call is safe whatever bytes it contains.
#[repr(C)]
#[derive(Drop)]
pub struct T85Decoder {
    pub version: u32,
    /// The next event: `HEADER`, `FIRST_ROW`, `ROWS` or `ENDED`.
    pub next: u32,
    /// The greatest number of rows that are returned.
    pub max_rows: u32,
    /// The number of rows returned.
    pub given: u32,
    pub header: [u8; 20],
    /// The engine's decoder, except for its height before the first row.
    pub numbers: PieceNumbers,
    /// How the stream has ended, if it has.
    pub status: u8,
    /// The place of the last row in the window: 0, 1 or 2.
    pub place: u8,
    /// The number of header bytes received.
    pub header_len: u8,
    // The fields of `HeldBytes`.
    pub held_len: u8,
    pub held: [u8; 7],
    pub spare: [u8; 5],
    pub reserved: [u64; 12],
    pub learned: Learned,
}

/// The result of a call.
#[derive(Clone, Copy)]
pub enum Answer {
    /// The header was read.
    Header,
    Row,
    More,
    Done,
    Broken(Fault),
    TooManyRows,
    /// The window is shorter than three rows.
    ShortWindow,
    /// The struct was not initialized, has another version, or has numbers that no call leaves.
    NotBegun,
    /// The stream had already ended, with this status.
    Ended(u8),
}

/// The result of a call, the number of bytes consumed, and the offset of the row in the window.
#[derive(Clone, Copy)]
pub struct Report {
    pub answer: Answer,
    pub taken: usize,
    pub row: usize,
}

/// Initializes a decoder. `size` is the size of the caller's struct. Returns 0; or 50 if the size is wrong, and then
/// `decoder` is unchanged.
#[unsafe(no_mangle)]
pub extern "C" fn t85_decode_start(decoder: &mut T85Decoder, size: usize, max_rows: u32) -> u8
    ensures { IsDecoderBegun size max_rows decoder.old decoder.new result }
{
    if size != SIZE {
        return OTHER_VERSION;
    }
    *decoder = T85Decoder::first(max_rows);
    0
}

/// Consumes bytes of the stream, up to the end of its header, to the end of the next row, or all of them.
///
/// Returns 60 if the header was read; 61 if a row was decoded, which begins at byte `row` of the window; 62 if all
/// bytes were consumed; 0 if the image is complete; 1 to 15 for an error in the stream; 24 if the image has more rows
/// than the limit. Without VLENGTH, 24 is returned with the header. With it, 24 is returned in place of 61 or 62, once
/// more rows than the limit are certain, or the bytes determine one more row than the limit. Returns 19 if the window is
/// shorter than `t85_window_bytes` of the width, and 53 if the struct was not initialized, or no decoder has its numbers;
/// then nothing is consumed or changed. After the end it returns the same status again.
///
/// `taken` is the number of bytes consumed. Before the header has been read, the window may be empty.
#[unsafe(no_mangle)]
pub extern "C" fn t85_decode_bytes(
    decoder: &mut T85Decoder,
    bytes: &[u8],
    window: &mut [u8],
    taken: &mut usize,
    row: &mut usize,
) -> u8
    ensures { IsAnswered (hold_of decoder.old window.old) (hold_of decoder.new window.new)
        (bytes_call bytes.now false taken.new row.new) result }
{
    let told = decoder.go_on(bytes, window, More::Comes);
    *taken = told.taken;
    *row = told.row;
    told.answer.status()
}

/// Signals the end of the input, once all bytes have been consumed. Decodes up to the end of the next row, or to the
/// end of the stream, and returns the same statuses as `t85_decode_bytes` except 62. Call it again as long as it
/// returns 61.
#[unsafe(no_mangle)]
pub extern "C" fn t85_decode_end(decoder: &mut T85Decoder, window: &mut [u8], row: &mut usize) -> u8
    ensures { IsAnswered (hold_of decoder.old window.old) (hold_of decoder.new window.new)
        (bytes_call [] true 0 row.new) result }
{
    let told = decoder.go_on(&[], window, More::None);
    *row = told.row;
    told.answer.status()
}

/// Returns the current height: the header's until another has arrived, and 0 before the header has been read, or if it
/// was rejected.
#[unsafe(no_mangle)]
pub extern "C" fn t85_decode_height(decoder: &T85Decoder) -> u32
    ensures { result ≡ height_of_decoder decoder.now }
{
    if decoder.version != VERSION || decoder.next == HEADER {
        0
    } else {
        decoder.numbers.height
    }
}

/// Returns how many of the first rows belong to the image, whatever bytes follow: no height that arrives later is below
/// this. It is 0 before the first call for rows, the height after the end, and 0 if no decoder has the struct's numbers.
#[unsafe(no_mangle)]
pub extern "C" fn t85_decode_certain(decoder: &T85Decoder) -> u32
    ensures among { TellsCertain decoder.now result }
    ensures ended { decoder.now.version ≡ 2 → decoder.now.next ≡ 3 →
        result ≡ decoder.now.numbers.height }
    ensures before { decoder.now.next < 2 → result ≡ 0 }
    ensures not_begun { DecoderIsNotBegun decoder.now → result ≡ 0 }
{
    if decoder.version != VERSION {
        return 0;
    }
    match decoder.next {
        ROWS => decoder.certain(),
        ENDED => decoder.numbers.height,
        _ => 0,
    }
}

impl Answer {
    fn status(self) -> u8
        ensures { result ≡ status_told self }
    {
        match self {
            Answer::Done => 0,
            Answer::Broken(fault) => fault.number(),
            Answer::ShortWindow => 19,
            Answer::TooManyRows => 24,
            Answer::NotBegun => 53,
            Answer::Header => 60,
            Answer::Row => 61,
            Answer::More => 62,
            Answer::Ended(status) => status,
        }
    }

    /// This result, with nothing consumed.
    fn alone(self) -> Report
        ensures answer { result.answer ≡ self }
        ensures taken { result.taken ≡ 0 }
    {
        Report {
            answer: self,
            taken: 0,
            row: 0,
        }
    }
}

impl T85Decoder {
    /// Continues with these bytes.
    fn go_on(&mut self, bytes: &[u8], window: &mut [u8], more: More) -> Report
        ensures answers { Answers (HasRead (hold_of self.old window.old))
            (hold_of self.old window.old) (hold_of self.new window.new)
            (more_call bytes.now more result.taken result.row) result.answer }
        ensures not_begun { DecoderIsNotBegun self.old → result.answer ≡ answer.NotBegun }
        ensures ended { self.old.version ≡ 2 → self.old.next ≡ 3 →
            result.answer ≡ answer.Ended self.old.status }
        ensures limit { self.new.max_rows ≡ self.old.max_rows }
        ensures within { StaysWithinLimit result.answer self.new }
        ensures once { result.answer ≡ answer.Header → self.old.next ≡ 0 }
        ensures header { ReadsHeader (hold_of self.old window.old) bytes.now →
            result.answer ≡ answer.Header }
        ensures short { LacksWindow (hold_of self.old window.old) →
            result.answer ≡ answer.ShortWindow }
    {
        if self.version != VERSION {
            return Answer::NotBegun.alone();
        }
        match self.next {
            HEADER => self.take_header(bytes, more),
            FIRST_ROW => self.take_rows(bytes, window, more),
            ROWS => self.take_rows(bytes, window, more),
            ENDED => Answer::Ended(self.status).alone(),
            _ => Answer::NotBegun.alone(),
        }
    }
}

const _: () = prove!(std::mem::size_of::<T85Decoder>() == SIZE);
