//! The rows of a stream in pieces.

ghost use Rattle.std.specs.Prelude.{◌≡◌, ◌≢◌, ◌<◌, ◌*◌, ◌⊎◌, List, ℕ, None, Some, length};
ghost use Rattle.libt85.specs.Decoded.{window_bytes as window_of};
ghost use Rattle.libt85.specs.Decoder.{Answers, DecoderIsNotBegun, LacksWindow, TellsCertain, more_call};
ghost use Rattle.libt85.specs.DecoderLimit.{StaysWithinLimit};
ghost use Rattle.libt85.specs.DecoderState.{HasRead, hold_of};
ghost use Rattle.libt85.specs.declared.decoder.Answer.TheVariants as answer;
ghost use Rattle.libt85.specs.DecoderSteps.{IsOfEngine};

use crate::decoder::{Answer, FIRST_ROW, ROWS, Report, T85Decoder};
use crate::opened::read_header;
use pbm_core::row_bytes;
use raster_core::{Window, window_bytes};
use t85_core::laws::headers;
use t85_core::{Header, HeldBytes, More, PieceDecoder};

impl T85Decoder {
    ghost use Rattle.libt85.specs.DecoderSteps.{ContinuesRows, MayEnterRows, MayTakeRows};

    /// Consumes bytes after the header.
    pub(super) fn take_rows(&mut self, bytes: &[u8], window: &mut [u8], more: More) -> Report
        requires version { self.old.version ≡ 2 }
        requires next { (self.old.next ≡ 1) ⊎ (self.old.next ≡ 2) }
        ensures answers { Answers (HasRead (hold_of self.old window.old))
            (hold_of self.old window.old) (hold_of self.new window.new)
            (more_call bytes.now more result.taken result.row) result.answer }
        ensures not_begun { DecoderIsNotBegun self.old → result.answer ≡ answer.NotBegun }
        ensures limit { self.new.max_rows ≡ self.old.max_rows }
        ensures within { StaysWithinLimit result.answer self.new }
        ensures no_header { result.answer ≢ answer.Header }
        ensures short { LacksWindow (hold_of self.old window.old) →
            result.answer ≡ answer.ShortWindow }
    {
        // The proof uses these laws about headers.
        headers();
        let header = match read_header(&self.header) {
            Ok(header) => header,
            Err(_) => return Answer::NotBegun.alone(),
        };
        let needed = window_bytes(header.xd);
        if self.next == FIRST_ROW {
            if window.len() < needed {
                return Answer::ShortWindow.alone();
            }
            return self.take_first_row(&header, &mut window[..needed], bytes, more);
        }
        if self.place >= 3 {
            return Answer::NotBegun.alone();
        }
        let mut decoder = match PieceDecoder::resume(header, &self.numbers) {
            Some(decoder) => decoder,
            None => return Answer::NotBegun.alone(),
        };
        if needed > window.len() {
            return Answer::ShortWindow.alone();
        }
        self.take_row(&header, &mut decoder, &mut window[..needed], bytes, more)
    }

    /// Starts decoding rows, with a window of exactly three rows.
    fn take_first_row(
        &mut self,
        header: &Header,
        memory: &mut [u8],
        bytes: &[u8],
        more: More,
    ) -> Report
        requires long { length memory.old ≡ window_of header.now.xd }
        requires may { MayEnterRows header.now self.old }
        requires next { self.old.next ≡ 1 }
        ensures answers { Answers (HasRead (hold_of self.old memory.old))
            (hold_of self.old memory.old) (hold_of self.new memory.new)
            (more_call bytes.now more result.taken result.row) result.answer }
        ensures engine { IsOfEngine result.answer }
        ensures same_header { self.new.header ≡ self.old.header }
        ensures limit { self.new.max_rows ≡ self.old.max_rows }
        ensures within { StaysWithinLimit result.answer self.new }
        ensures no_header { result.answer ≢ answer.Header }
    {
        let mut decoder = self.enter_rows(header, memory);
        self.take_row(header, &mut decoder, memory, bytes, more)
    }

    /// Starts decoding rows: makes the window white, and resets the contexts.
    fn enter_rows(&mut self, header: &Header, memory: &mut [u8]) -> PieceDecoder
        requires long { length memory.old ≡ window_of header.now.xd }
        requires may { MayEnterRows header.now self.old }
        requires next { self.old.next ≡ 1 }
        ensures may { MayTakeRows header.now self.new }
        ensures header { result.image.header ≡ header.now }
        ensures has { (stream out : List ℕ) → HasRead (hold_of self.old memory.old) stream out →
            ContinuesRows header.now result (hold_of self.new memory.new) stream out }
        ensures same_header { self.new.header ≡ self.old.header }
        ensures limit { self.new.max_rows ≡ self.old.max_rows }
    {
        let mut window = Window::over(memory, header.xd);
        let decoder = PieceDecoder::start(*header, &mut window, &mut self.learned);
        self.place = window.place();
        self.hold(HeldBytes::none());
        self.given = 0;
        self.next = ROWS;
        decoder
    }

    /// Continues up to the end of the next row, or as far as the bytes allow.
    #[inline(always)]
    fn take_row(
        &mut self,
        header: &Header,
        decoder: &mut PieceDecoder,
        memory: &mut [u8],
        bytes: &[u8],
        more: More,
    ) -> Report
        requires long { length memory.old ≡ window_of header.now.xd }
        requires may { MayTakeRows header.now self.old }
        requires header { decoder.old.image.header ≡ header.now }
        ensures answers { Answers (ContinuesRows header.now decoder.old (hold_of self.old
            memory.old)) (hold_of self.old memory.old) (hold_of self.new memory.new)
            (more_call bytes.now more result.taken result.row) result.answer }
        ensures engine { IsOfEngine result.answer }
        ensures same_header { self.new.header ≡ self.old.header }
        ensures limit { self.new.max_rows ≡ self.old.max_rows }
        ensures within { StaysWithinLimit result.answer self.new }
        ensures no_header { result.answer ≢ answer.Header }
    {
        // The proof uses these laws about headers.
        headers();
        let mut window = Window::resume(memory, header.xd, self.place);
        let mut held = self.held();
        let progress = decoder.feed(&mut window, &mut self.learned, &mut held, bytes, more);
        self.keep(decoder, window.place());
        self.hold(held);
        let certain = decoder.certain();
        let row = usize::from(self.place) * row_bytes(header.xd);
        Report {
            answer: self.limited_answer(progress.outcome, certain),
            taken: progress.taken,
            row,
        }
    }

    /// The number of certain rows, for a decoder that is decoding rows; 0 if no call leaves this struct.
    pub(super) fn certain(&self) -> u32
        requires version { self.now.version ≡ 2 }
        requires next { self.now.next ≡ 2 }
        ensures certain { TellsCertain self.now result }
        ensures not_begun { DecoderIsNotBegun self.now → result ≡ 0 }
    {
        // The proof uses these laws about headers.
        headers();
        let header = match read_header(&self.header) {
            Ok(header) => header,
            Err(_) => return 0,
        };
        if self.place > 2 {
            return 0;
        }
        match PieceDecoder::resume(header, &self.numbers) {
            Some(decoder) => decoder.certain(),
            None => 0,
        }
    }
}
