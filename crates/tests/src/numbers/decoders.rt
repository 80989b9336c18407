//! A decoder accepts numbers that a decoder can have, and rejects all others.

use crate::numbers::DECODER;
use qm_core::{Decoder, DecoderRegisters};

/// Whether numbers are those of a decoder, which then exports them.
fn is_decoder(numbers: DecoderRegisters) -> bool {
    match Decoder::from_registers(numbers) {
        Some(decoder) => decoder.registers() == numbers,
        None => false,
    }
}

/// Numbers, and whether they are a decoder's.
static DECODERS: [(&str, DecoderRegisters, bool); 12] = [
    ("as they were", DECODER, true),
    (
        "at the end",
        DecoderRegisters {
            has_ended: 1,
            ..DECODER
        },
        true,
    ),
    (
        "no flag",
        DecoderRegisters {
            has_ended: 2,
            ..DECODER
        },
        false,
    ),
    ("no size", DecoderRegisters { span: 0, ..DECODER }, false),
    (
        "too small",
        DecoderRegisters {
            code: 0,
            span: 0x3F_FF80,
            ..DECODER
        },
        false,
    ),
    (
        "too large",
        DecoderRegisters {
            span: 0x80_0080,
            ..DECODER
        },
        false,
    ),
    (
        "a size and a half",
        DecoderRegisters {
            span: 0x5A_1D40,
            ..DECODER
        },
        false,
    ),
    (
        "too many bits",
        DecoderRegisters {
            bits: 24,
            ..DECODER
        },
        false,
    ),
    (
        "the last code of the interval",
        DecoderRegisters {
            code: 0x5A_1C00,
            ..DECODER
        },
        true,
    ),
    (
        "a code above it",
        DecoderRegisters {
            code: 0x5A_1D00,
            ..DECODER
        },
        false,
    ),
    (
        "a code with bits that were not pulled",
        DecoderRegisters {
            code: 0x4A_1D80,
            ..DECODER
        },
        false,
    ),
    (
        "the greatest numbers",
        DecoderRegisters {
            code: u32::MAX,
            span: u32::MAX,
            bits: u32::MAX,
            has_ended: 1,
        },
        false,
    ),
];

#[test]
fn decoders_of_any_numbers(rt: HostRuntime) {
    for &(name, numbers, is) in &DECODERS {
        assert!(rt; is_decoder(numbers) == is, "{name}");
    }
}
