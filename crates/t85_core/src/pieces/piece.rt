//! A piece of a stream as a byte source.

ghost use Rattle.std.specs.Prelude.{◌≡◌, ◌≤◌, ◌<◌, ◌++◌, ℕ, Bool, Ok, None, Some, IfErr, IfOk, [], length, true, false};
ghost use Rattle.t85_core.specs.declared.fault.Fault.{Fault};
ghost use Rattle.t85_core.specs.declared.fault.Fault.TheVariants.{Truncated};
ghost use Rattle.t85_core.specs.declared.segments.Code.TheVariants as code;
ghost use Rattle.t85_core.specs.Private.Entity.{CodeEnds};
ghost use Rattle.t85_core.specs.States.Segments.{IsByteOrMarker, code_bytes};

use crate::byte_source::{ByteSource, HeldSource, plain_len};
use crate::fault::Fault;
use crate::segments::{Code, ESCAPE, next_code};
use qm_core::{CodeBytes, Pulled};

/// The bytes of a piece, all of which are available.
#[derive(Drop)]
pub struct Piece<'a> {
    pub rest: &'a [u8],
}

impl ByteSource for Piece<'_> {
    ghost use Rattle.t85_core.specs.Private.Views.{piece_source};

    ghost view = { λ s. piece_source s };

    fn next(&mut self) -> Result<u8, Fault> {
        match self.rest {
            [] => Err(Fault::Truncated),
            [first, rest @ ..] => {
                self.rest = rest;
                Ok(*first)
            }
        }
    }

    #[inline(always)]
    fn next_plain(&mut self) -> Option<u8> {
        match self.rest {
            [] => None,
            [first, rest @ ..] => {
                if *first == ESCAPE {
                    return None;
                }
                self.rest = rest;
                Some(*first)
            }
        }
    }

    fn skip_plain(&mut self) {
        let len = plain_len(self.rest);
        self.rest = &self.rest[len..];
    }
}

impl HeldSource for Piece<'_> {
    ghost use Rattle.t85_core.specs.Private.Views.{piece_source};

    ghost view = { λ s. piece_source s };

    ghost bytes = { λ s. s.rest.now };

    #[inline(always)]
    fn held(&self) -> &[u8] {
        self.rest
    }

    #[inline(always)]
    fn keep(&mut self, left: usize) {
        let held = self.rest.len();
        self.rest = &self.rest[held - left.min(held)..];
    }

    fn refill(&mut self) -> Result<(), Fault> {
        self.rest = &self.rest[self.rest.len()..];
        Err(Fault::Truncated)
    }
}

/// Reads a byte of a code that has begun, or its end marker. If it has not arrived, or is neither, nothing is consumed.
pub fn whole_code(piece: &mut Piece<'_>) -> Result<Code, Fault>
    ensures ok { IfOk result (λ code. IsByteOrMarker code ×
        (piece.old.rest.now ≡ code_bytes code ++ piece.new.rest.now)) }
    ensures err { IfErr result (CodeEnds piece.old.rest.now) }
    ensures stays { IfErr result (λ _. piece.new.rest.now ≡ piece.old.rest.now) }
    ensures few { IfErr result (λ f. f ≡ Truncated → length piece.new.rest.now ≤ 1) }
    ensures no_more { length piece.new.rest.now ≤ length piece.old.rest.now }
    ensures lowers { IfOk result (λ _. length piece.new.rest.now < length piece.old.rest.now) }
{
    let rest = piece.rest;
    match next_code(piece) {
        Ok(code) => Ok(code),
        Err(fault) => {
            piece.rest = rest;
            Err(fault)
        }
    }
}

/// The part of a stripe's code that is in a piece, with stuffing removed, followed by its end marker. `PART` has no
/// meaning for the code: it makes the compiler compile whole rows and the rest of a row separately, each without what
/// only the other needs.
#[derive(Drop)]
pub struct PieceCode<'a, const PART: usize> {
    pub piece: Piece<'a>,
    /// The byte or marker read ahead to find the start of the code.
    pub first: Option<Code>,
    /// Whether the end marker resets, once it has been read.
    pub marker: Option<bool>,
    /// Whether the code stops at its end marker, and reads it ahead.
    pub waits: bool,
    /// Why the code is broken, or that the piece has ended.
    pub fault: Option<Fault>,
    pub failures: u64,
    ghost small: { (b : ℕ) → first ≡ Some (code.Byte b) → b < 256 },
    ghost behind: { (r : Bool) → marker ≡ Some r → first ≡ None },
    ghost broken: { (f : Fault) → fault ≡ Some f → first ≡ None },
    ghost few: { fault ≡ Some Truncated → length piece.rest.now ≤ 1 },
}

impl<const PART: usize> PieceCode<'_, PART> {
    ghost use Rattle.qm_core.specs.Source.{failures_after};
    ghost use Rattle.t85_core.specs.Private.Entity.{EntityGives};
    ghost use Rattle.t85_core.specs.Private.Views.{piece_view};

    /// The result of a row of this code: true if the row is whole; otherwise why the code stopped, or false if it
    /// stopped at its end marker.
    #[inline(always)]
    pub fn row_result(&self, is_whole: bool) -> Result<bool, Fault>
        ensures whole { is_whole ≡ true → result ≡ Ok true }
        ensures row { result ≡ Ok true → is_whole ≡ true }
        ensures marker { result ≡ Ok false → self.now.fault ≡ None }
        ensures fault { (f : Fault) → result ≡ Err f → self.now.fault ≡ Some f }
    {
        if is_whole {
            return Ok(true);
        }
        match self.fault {
            Some(fault) => Err(fault),
            None => Ok(false),
        }
    }

    /// Returns the next byte, whatever comes next.
    #[inline(never)]
    fn pull_any(&mut self) -> Pulled
        ensures answer { EntityGives (piece_view self.old) result (piece_view self.new) }
        ensures counted { self.new.failures ≡ failures_after result self.old.failures }
        ensures fewer { length self.new.piece.rest.now ≤ length self.old.piece.rest.now }
    {
        if self.fault.is_some() || self.marker.is_some() {
            self.failures = self.failures.wrapping_add(1);
            return Pulled::Fault;
        }
        let next = match self.first.take() {
            Some(code) => Ok(code),
            None => whole_code(&mut self.piece),
        };
        match next {
            Ok(Code::Byte(byte)) => Pulled::Byte(byte),
            Ok(Code::Marker(reset)) => {
                if self.waits {
                    self.first = Some(Code::Marker(reset));
                    self.failures = self.failures.wrapping_add(1);
                    return Pulled::Fault;
                }
                self.marker = Some(reset);
                Pulled::End
            }
            Err(fault) => {
                self.fault = Some(fault);
                self.failures = self.failures.wrapping_add(1);
                Pulled::Fault
            }
        }
    }
}

impl<const PART: usize> CodeBytes for PieceCode<'_, PART> {
    ghost use Rattle.t85_core.specs.Private.Entity.{EntityGives};
    ghost use Rattle.t85_core.specs.Private.Views.{piece_view};

    ghost gives = { λ s answer t. EntityGives
        (piece_view s)
        answer
        (piece_view t) };

    ghost failed = { λ s. s.failures };

    ghost left = { λ s. length s.piece.rest.now };

    #[inline(never)]
    fn pull(&mut self) -> Pulled {
        // After an error, nothing is guaranteed.
        if self.first.is_none() {
            if let Some(byte) = self.piece.next_plain() {
                return Pulled::Byte(byte);
            }
        }
        self.pull_any()
    }

    fn failures(&self) -> u64 {
        self.failures
    }
}
