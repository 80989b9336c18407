//! Exports and restores an encoder as numbers.

ghost use Rattle.std.specs.Prelude.{◌≡◌, ◌+◌, ◌-◌, ◌*◌, ◌%◌, ◌<◌, List, ℕ, None, false};
ghost use Rattle.qm_core.specs.Place.{Place, same};

use crate::batch::Tail;
use crate::encoder::{Encoder, FAILED, LARGE, MAX_EVENTS};
use crate::registers::EncoderRegisters;

impl Encoder {
    ghost use Rattle.std.specs.Prelude.{Some, IfSome};
    ghost use Rattle.qm_core.specs.Encoder.{event_count, has_failed, waiting_bytes, encoder_registers, EncoderIsAt, EncoderStands};

    /// The encoder as numbers.
    pub fn registers(&self) -> EncoderRegisters
        ensures { result ≡ encoder_registers self.now }
    {
        EncoderRegisters {
            low: self.low,
            span: self.span,
            bits: self.bits,
            zeros: self.tail.zeros,
            has_held: self.tail.held.is_some(),
            held: self.tail.held.unwrap_or(0),
            ones: self.tail.ones,
            events: self.events,
            has_failed: self.floor == FAILED,
        }
    }

    /// The encoder that has these numbers and has not failed, if there is one.
    pub fn from_registers(registers: EncoderRegisters) -> Option<Encoder>
        ensures same { (e : Encoder) (p : Place) (pushed : List ℕ) → EncoderIsAt e p pushed →
            has_failed e ≡ false → registers ≡ encoder_registers e → result ≡ Some e }
        ensures is { IfSome result (λ e. (has_failed e ≡ false)
            × (encoder_registers e ≡ registers)) }
        ensures stands { IfSome result EncoderStands }
    {
        let low = registers.low;
        let span = registers.span;
        let bits = registers.bits;
        if registers.has_failed || span < 0x40_0000 || span > 0x80_0000 || span % 128 != 0 {
            return None;
        }
        if bits < 16 || bits > 39 || low % 128 != 0 {
            return None;
        }
        let end = 1u64 << (bits + 7 + u32::from(registers.has_held));
        if low > end || u64::from(span) > end - low {
            return None;
        }
        let held_back = u128::from(registers.zeros) + u128::from(registers.ones);
        let most = 16 * u128::from(registers.events) + 16;
        if registers.events > MAX_EVENTS || 8 * held_back + u128::from(bits) > most {
            return None;
        }
        if registers.held > 254 * u8::from(registers.has_held) {
            return None;
        }
        Some(Encoder {
            low,
            span,
            bits,
            tail: Tail {
                zeros: registers.zeros,
                held: registers.has_held.then_some(registers.held),
                ones: registers.ones,
            },
            events: registers.events,
            floor: LARGE,
        })
    }

    /// The number of pixels encoded.
    pub fn events(&self) -> u64
        ensures { result ≡ event_count self.now }
    {
        self.events
    }

    /// An upper bound on the code bytes held back, before stuffing: those that a carry may still change, and those of
    /// the low end.
    pub fn waiting(&self) -> u64
        ensures { result ≡ waiting_bytes self.now }
    {
        let held = u64::from(self.tail.held.is_some());
        self.tail.zeros + held + self.tail.ones + u64::from((self.bits + 7) / 8)
    }
}
