//! Exports and restores a decoder as numbers.

ghost use Rattle.std.specs.Prelude.{◌≡◌, ◌+◌, ◌-◌, ◌%◌, ◌<◌, false};
ghost use Rattle.qm_core.specs.Place.{same};

use crate::decoder::Decoder;
use crate::registers::DecoderRegisters;
use crate::source::Heard;

impl Decoder {
    ghost use Rattle.std.specs.Prelude.{Some, IfSome};
    ghost use Rattle.qm_core.specs.Decoder.{has_stopped, decoder_registers};
    ghost use Rattle.qm_core.specs.declared.source.Heard.TheVariants.{More};

    /// The decoder as numbers. They do not include whether it has stopped.
    pub fn registers(&self) -> DecoderRegisters
        ensures { result ≡ decoder_registers self.now }
    {
        DecoderRegisters {
            code: self.code,
            span: self.span,
            bits: self.bits,
            has_ended: u8::from(matches!(self.heard, Heard::Ended)),
        }
    }

    /// The decoder that has these numbers and has not stopped, if there is one.
    #[inline(always)]
    pub fn from_registers(registers: DecoderRegisters) -> Option<Decoder>
        ensures same { (d : Decoder) → has_stopped d ≡ false → registers ≡ decoder_registers d →
            result ≡ Some d }
        ensures is { IfSome result (λ d. (has_stopped d ≡ false)
            × (decoder_registers d ≡ registers)) }
    {
        let DecoderRegisters {
            code,
            span,
            bits,
            has_ended,
        } = registers;
        if span < 0x40_0000 || span > 0x80_0000 || span % 128 != 0 || bits > 23 {
            return None;
        }
        let unit = 1u32 << (23 - bits);
        if code % unit != 0 || u64::from(code) + u64::from(unit) > u64::from(span) {
            return None;
        }
        let heard = match has_ended {
            0 => Heard::More,
            1 => Heard::Ended,
            _ => return None,
        };
        Some(Decoder {
            code,
            span,
            bits,
            heard,
        })
    }
}
