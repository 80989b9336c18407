//! The state of a decoder in pieces as the struct stores it.

ghost use Rattle.std.specs.Prelude.{◌≡◌};
ghost use Rattle.t85_core.specs.Feeds.{held_bytes};
ghost use Rattle.libt85.specs.Decoder.{HasEnded};
ghost use Rattle.t85_core.specs.Numbers.{ArePieceNumbers};
ghost use Rattle.libt85.specs.DecoderState.{bytes_held_by};
ghost use Rattle.libt85.specs.DecoderStart.{BeginsDecoder};
ghost use Rattle.libt85.specs.DecoderSteps.{KeepsRest};

use crate::decoder::{ENDED, HEADER, T85Decoder, VERSION};
use qm_core::Learned;
use t85_core::{HeldBytes, PieceDecoder, PieceNumbers};

impl T85Decoder {
    /// A decoder before the first byte.
    pub(crate) fn first(max_rows: u32) -> T85Decoder
        ensures { BeginsDecoder max_rows result 0 }
    {
        T85Decoder {
            version: VERSION,
            next: HEADER,
            max_rows,
            given: 0,
            header: [0; 20],
            numbers: PieceNumbers::none(),
            status: 0,
            place: 0,
            header_len: 0,
            held_len: 0,
            held: [0; 7],
            spare: [0; 5],
            reserved: [0; 12],
            learned: Learned::new(),
        }
    }

    /// Stores the engine's decoder, and the place of its row in the window.
    pub(super) fn keep(&mut self, decoder: &PieceDecoder, place: u8)
        ensures numbers { ArePieceNumbers self.new.numbers decoder.now }
        ensures place { self.new.place ≡ place }
        ensures held { bytes_held_by self.new ≡ bytes_held_by self.old }
        ensures same { KeepsRest self.old self.new }
    {
        decoder.store(&mut self.numbers);
        self.place = place;
    }

    /// The bytes that were consumed and are not decoded yet.
    pub(super) fn held(&self) -> HeldBytes
        ensures { held_bytes result ≡ bytes_held_by self.now }
    {
        let bytes = self.held;
        HeldBytes {
            bytes,
            len: self.held_len,
        }
    }

    /// Stores the bytes that were consumed and are not decoded yet.
    pub(super) fn hold(&mut self, held: HeldBytes)
        ensures held { bytes_held_by self.new ≡ held_bytes held }
        ensures numbers { self.new.numbers ≡ self.old.numbers }
        ensures place { self.new.place ≡ self.old.place }
        ensures same { KeepsRest self.old self.new }
    {
        let bytes = held.bytes;
        self.held = bytes;
        self.held_len = held.len;
    }

    /// Stores how the stream has ended.
    pub(super) fn end(&mut self, status: u8)
        ensures ended { HasEnded self.new status }
        ensures height { self.new.numbers.height ≡ self.old.numbers.height }
        ensures numbers { self.new.numbers ≡ self.old.numbers }
        ensures held { bytes_held_by self.new ≡ bytes_held_by self.old }
        ensures limit { self.new.max_rows ≡ self.old.max_rows }
        ensures same_header { self.new.header ≡ self.old.header }
    {
        self.version = VERSION;
        self.next = ENDED;
        self.status = status;
    }
}
