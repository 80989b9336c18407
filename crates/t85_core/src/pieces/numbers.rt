//! Stores a decoder in pieces as plain numbers, and restores it.

ghost use Rattle.std.specs.Prelude.{◌≡◌, List, None, Some, ℕ, IfSome, IsSome, IsSomeAnd};
ghost use Rattle.qm_core.specs.Place.{Estimate};
ghost use Rattle.raster_core.specs.Packed.{Held};
ghost use Rattle.t85_core.specs.Numbers.{AreCourseNumbers, ArePieceNumbers, IsCourseAs, StaysInImage, piece_numbers};
ghost use Rattle.t85_core.specs.Options.{fields_of};
ghost use Rattle.t85_core.specs.declared.pieces.course.Course.{Course};

mod head;
mod phase;
mod stage;

use crate::header::{Header, SizedImage};
use crate::pieces::PieceDecoder;
use crate::pieces::course::Course;
use crate::pieces::numbers::phase::number_of_waits;
use qm_core::{Decoder, DecoderRegisters};
use raster_core::{Kept, RowPlaceNumbers};

/// A move of the adaptive template pixel (ATMOVE), or none.
#[repr(C)]
#[derive(Clone, Copy, PartialEq, Eq, Debug)]
pub struct MoveNumbers {
    /// The row of the stripe at which it takes effect.
    pub row: u32,
    pub offset: u8,
    /// Whether there is a move.
    pub is_there: u8,
}

/// The marker segments of a stripe that have arrived.
#[repr(C)]
#[derive(Clone, Copy, PartialEq, Eq, Debug)]
pub struct HeadNumbers {
    pub at: MoveNumbers,
    /// The number of bytes of a comment still to come.
    pub comment: u32,
    /// Whether a comment has begun.
    pub has_comment: u8,
}

/// The next item in a stream, and what has been read of it.
#[repr(C)]
#[derive(Clone, Copy, PartialEq, Eq, Debug)]
pub struct StageNumbers {
    /// The move of the stripe.
    pub at: MoveNumbers,
    /// The number of bytes of a comment still to come.
    pub comment: u32,
    /// The number of rows of the stripe that are decoded.
    pub row: u32,
    /// How far the next row is decoded.
    pub place: RowPlaceNumbers,
    /// The byte or marker read ahead of the code: 0 nothing, 1 SDNORM, 2 SDRST, from 256 on 256 plus a byte.
    pub ahead: u16,
    /// The end marker that was read: 0 none, 1 SDNORM, 2 SDRST.
    pub marker: u8,
    /// The next item: 0 a marker segment of a stripe or its code, 1 the rest of a comment, 2 a row or the end of a
    /// code, 3 the rest of a row, 4 nothing.
    pub next: u8,
}

/// The state of a decoder in pieces that has not ended, as numbers that anyone may store. To continue, it also needs
/// its header, and for each call the window and the contexts. A flag is 0 or 1, and a number that a state does not have is
/// 0; to resume, a flag is set unless it is 0, and such a number is ignored.
#[repr(C)]
#[derive(Clone, Copy, PartialEq, Eq, Debug)]
pub struct PieceNumbers {
    pub stage: StageNumbers,
    pub decoder: DecoderRegisters,
    /// The marker segments that arrived behind an end marker.
    pub behind: HeadNumbers,
    /// The current height.
    pub height: u32,
    /// The number of stripe data entities before the current stripe.
    pub entities: u32,
    /// The number of rows that are not in those.
    pub left: u32,
    /// The offset of the adaptive template pixel.
    pub offset: u8,
    /// Whether the row before was typical.
    pub is_previous_typical: u8,
    /// Whether a height may still arrive.
    pub is_open: u8,
    /// If one may: 0 in the code of a stripe, 1 behind an end marker or before the first stripe, 2 if a height behind the
    /// last stripe has ended the image.
    pub waits: u8,
    /// Whether a NEWLEN gave a height.
    pub is_given: u8,
}

/// The greatest offset of the adaptive template pixel in T.85.
const MOST_OFFSET: u8 = 127;

impl PieceNumbers {
    ghost use Rattle.std.specs.Prelude.{◌↔◌, IsTrue, true};
    ghost use Rattle.t85_core.specs.Phases.{phase_stage};
    ghost use Rattle.t85_core.specs.Stages as stage;
    ghost use Rattle.t85_core.specs.declared.pieces.PieceDecoder.{PieceDecoder};

    /// Numbers that no decoder has, since their height is 0.
    pub fn none() -> PieceNumbers
        ensures { result.height ≡ 0 }
    {
        let at = MoveNumbers::none();
        PieceNumbers {
            stage: StageNumbers::done(),
            decoder: DecoderRegisters {
                code: 0,
                span: 0,
                bits: 0,
                has_ended: 0,
            },
            behind: HeadNumbers {
                at,
                comment: 0,
                has_comment: 0,
            },
            height: 0,
            entities: 0,
            left: 0,
            offset: 0,
            is_previous_typical: 0,
            is_open: 0,
            waits: 0,
            is_given: 0,
        }
    }

    /// Whether the row before was typical, and the next item is the beginning of a row, or the end of a code. If not, no
    /// row can repeat.
    #[inline(always)]
    pub fn may_repeat(&self) -> bool
        ensures { (d : PieceDecoder) → ArePieceNumbers self.now d → IsTrue result ↔
            ((d.course.kept.previous_typical ≡ true) ×
            (stage.stage_kind (phase_stage d.phase) ≡ stage.Code)) }
    {
        self.is_previous_typical != 0 && self.stage.next == 2
    }

    /// The stripe and the state carried there.
    #[inline(always)]
    fn course(&self) -> Option<Course>
        ensures all { (c : Course) → AreCourseNumbers self.now c → IsSomeAnd result (IsCourseAs c) }
        ensures is { IfSome result (AreCourseNumbers self.now) }
    {
        if self.offset > MOST_OFFSET || self.left > u32::MAX - self.entities || self.left == 0 {
            return None;
        }
        Some(Course {
            kept: Kept {
                offset: self.offset,
                previous_typical: self.is_previous_typical != 0,
            },
            decoder: Decoder::from_registers(self.decoder)?,
            entities: self.entities,
            left: self.left,
            given: self.is_given != 0,
        })
    }
}

impl PieceDecoder {
    ghost use Rattle.t85_core.specs.Lent.{decoder_view};
    ghost use Rattle.t85_core.specs.Pieces.{HasDecoded};
    ghost use Rattle.t85_core.specs.declared.pieces.PieceDecoder.{PieceDecoder};

    /// The state as numbers, except for how the stream has ended.
    pub fn numbers(&self) -> PieceNumbers
        ensures exact { result ≡ piece_numbers self.now }
        ensures are { ArePieceNumbers result self.now }
    {
        let mut numbers = PieceNumbers::none();
        self.store(&mut numbers);
        numbers
    }

    /// Stores these numbers.
    #[inline(always)]
    pub fn store(&self, numbers: &mut PieceNumbers)
        ensures exact { numbers.new ≡ piece_numbers self.now }
        ensures are { ArePieceNumbers numbers.new self.now }
    {
        let course = &self.course;
        numbers.stage.store(&self.phase);
        numbers.decoder = course.decoder.registers();
        numbers.behind.store(self.phase.behind());
        numbers.height = self.image.height;
        numbers.entities = course.entities;
        numbers.left = course.left;
        numbers.offset = course.kept.offset;
        numbers.is_previous_typical = u8::from(course.kept.previous_typical);
        numbers.is_open = u8::from(self.phase.is_open());
        numbers.waits = number_of_waits(&self.phase);
        numbers.is_given = u8::from(course.given);
    }

    /// The decoder with this header that has these numbers and has not ended, if there is one whose rows and pixels are
    /// in its image. The next call must borrow the window and the contexts as the last call left them; with others it
    /// is only safe.
    #[inline(always)]
    pub fn resume(header: Header, numbers: &PieceNumbers) -> Option<PieceDecoder>
        ensures is { IfSome result (λ d. (d.image.header ≡ header) × (d.end ≡ None) ×
            ArePieceNumbers numbers.now d × StaysInImage d) }
        ensures all { (d : PieceDecoder) → fields_of d.image.header ≡ fields_of header →
            StaysInImage d → ArePieceNumbers numbers.now d → IsSome result }
        ensures resumes { (d : PieceDecoder) (rows : Held) (learned : List Estimate)
            (text out : List ℕ) → HasDecoded (decoder_view d rows learned) text out →
            fields_of d.image.header ≡ fields_of header → ArePieceNumbers numbers.now d →
            IsSomeAnd result (λ r. HasDecoded (decoder_view r rows learned) text out) }
    {
        if numbers.height < 1 || header.yd < numbers.height {
            return None;
        }
        let course = numbers.course()?;
        let phase = numbers.phase(&header)?;
        let image = SizedImage {
            header,
            height: numbers.height,
        };
        let is_late = phase.looks() && numbers.height != header.yd;
        let is_behind = phase.is_first() && numbers.entities > 0;
        if is_late || is_behind || !course.fits(&image) {
            return None;
        }
        Some(PieceDecoder {
            image,
            course,
            phase,
            end: None,
        })
    }
}
