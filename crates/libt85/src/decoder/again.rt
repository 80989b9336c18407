//! Rows of a stream in pieces that equal the row before.

ghost use Rattle.std.specs.Prelude.{◌≡◌, ◌<◌, ◌≤◌, List, ℕ, length};
ghost use Rattle.libt85.specs.Decoded.{window_bytes as window_of};
ghost use Rattle.libt85.specs.DecoderAgain.{GivesAgain};
ghost use Rattle.libt85.specs.DecoderState.{hold_of};

use crate::decoder::{ROWS, T85Decoder, VERSION};
use crate::opened::read_header;
use raster_core::{Window, window_bytes};
use t85_core::laws::{headers, repeats};
use t85_core::{Header, PieceDecoder};

/// Decodes further rows that equal the row returned last, as far as the consumed bytes determine them, and returns how
/// many. They count as returned: the next call returns the row after them.
///
/// Returns 0 if the next row may differ, is above the limit or has not arrived, before the first row, after the end, and
/// if `t85_decode_bytes` would return 19 or 53. Then nothing is changed. It stops where `PieceDecoder::repeat` does.
#[unsafe(no_mangle)]
pub extern "C" fn t85_decode_again(decoder: &mut T85Decoder, window: &mut [u8]) -> u32
    ensures { GivesAgain (hold_of decoder.old window.old) (hold_of decoder.new window.new) result }
{
    if decoder.version != VERSION || decoder.next != ROWS {
        return 0;
    }
    decoder.give_again(window)
}

impl T85Decoder {
    ghost use Rattle.libt85.specs.DecoderAgain.{MustGiveAgain, ReturnsAgain};
    ghost use Rattle.libt85.specs.DecoderSteps.{ContinuesRows, MayTakeRows};
    ghost use Rattle.t85_core.specs.Numbers.{ArePieceNumbers};

    /// Returns the last row again, for a decoder that is decoding rows.
    #[tactic(auto, using(crate::proofs::DecoderRepeatsRows::gives_none))]
    fn give_again(&mut self, window: &mut [u8]) -> u32
        requires version { self.old.version ≡ 2 }
        requires next { self.old.next ≡ 2 }
        ensures { GivesAgain (hold_of self.old window.old) (hold_of self.new window.new) result }
    {
        // The proof uses these laws about headers.
        headers();
        if self.given == 0 || self.given >= self.max_rows || self.place > 2 {
            return 0;
        }
        if !self.numbers.may_repeat() {
            return 0;
        }
        let header = match read_header(&self.header) {
            Ok(header) => header,
            Err(_) => return 0,
        };
        let needed = window_bytes(header.xd);
        if window.len() < needed {
            return 0;
        }
        match PieceDecoder::resume(header, &self.numbers) {
            Some(mut decoder) => self.repeat_row(&header, &mut decoder, &mut window[..needed]),
            None => 0,
        }
    }

    /// Returns the last row again, with a window of exactly three rows.
    fn repeat_row(&mut self, header: &Header, decoder: &mut PieceDecoder, memory: &mut [u8]) -> u32
        requires long { length memory.old ≡ window_of header.now.xd }
        requires may { MayTakeRows header.now self.old }
        requires header { decoder.old.image.header ≡ header.now }
        requires numbers { ArePieceNumbers self.old.numbers decoder.old }
        requires below { self.old.given < self.old.max_rows }
        ensures rows { (stream out : List ℕ) → ContinuesRows header.now decoder.old
            (hold_of self.old memory.old) stream out →
            (0 < result → ReturnsAgain (hold_of self.old memory.old)
            (hold_of self.new memory.new) result stream out) ×
            (MustGiveAgain (hold_of self.new memory.new) → ⊥) }
        ensures none { result ≡ 0 →
            hold_of self.new memory.new ≡ hold_of self.old memory.old }
        ensures within { self.new.given ≤ self.new.max_rows }
        ensures same_header { self.new.header ≡ self.old.header }
        ensures limit { self.new.max_rows ≡ self.old.max_rows }
    {
        // The proof uses these laws about headers, and about rows that repeat.
        headers();
        repeats();
        let most = self.max_rows - self.given;
        let mut window = Window::resume(memory, header.xd, self.place);
        let count = decoder.repeat(&mut window, &mut self.learned, most);
        if count == 0 {
            return 0;
        }
        self.keep(decoder, window.place());
        self.given += count;
        count
    }
}
