//! An encoder accepts numbers that an encoder can have, and rejects all others.

use crate::numbers::ENCODER;
use qm_core::{Encoder, EncoderRegisters, MAX_EVENTS};

/// Whether numbers are those of an encoder, which then exports them.
fn is_encoder(numbers: EncoderRegisters) -> bool {
    match Encoder::from_registers(numbers) {
        Some(encoder) => encoder.registers() == numbers,
        None => false,
    }
}

/// An encoder that holds back a byte and others around it.
const HOLDS: EncoderRegisters = EncoderRegisters {
    zeros: 1,
    has_held: true,
    held: 254,
    ones: 2,
    events: 3,
    ..ENCODER
};

/// Numbers, and whether they are an encoder's.
static ENCODERS: [(&str, EncoderRegisters, bool); 19] = [
    ("as they were", ENCODER, true),
    ("with bytes held back", HOLDS, true),
    (
        "failed",
        EncoderRegisters {
            has_failed: true,
            ..ENCODER
        },
        false,
    ),
    ("no size", EncoderRegisters { span: 0, ..ENCODER }, false),
    (
        "too small",
        EncoderRegisters {
            span: 0x3F_FF80,
            ..ENCODER
        },
        false,
    ),
    (
        "too large",
        EncoderRegisters {
            low: 0,
            span: 0x80_0080,
            ..ENCODER
        },
        false,
    ),
    (
        "a size and a half",
        EncoderRegisters {
            low: 0,
            span: 0x5A_1D40,
            ..ENCODER
        },
        false,
    ),
    (
        "a low end and a half",
        EncoderRegisters { low: 64, ..ENCODER },
        false,
    ),
    (
        "too few bits",
        EncoderRegisters {
            low: 0,
            bits: 15,
            ..ENCODER
        },
        false,
    ),
    (
        "the most bits",
        EncoderRegisters {
            bits: 39,
            events: 2,
            ..ENCODER
        },
        true,
    ),
    (
        "too many bits",
        EncoderRegisters {
            bits: 40,
            events: 2,
            ..ENCODER
        },
        false,
    ),
    (
        "a carry into nothing",
        EncoderRegisters {
            low: 0xA5_E380,
            ..ENCODER
        },
        false,
    ),
    (
        "a carry into a byte",
        EncoderRegisters {
            low: 0x1A5_E300,
            ..HOLDS
        },
        true,
    ),
    (
        "two carries into it",
        EncoderRegisters {
            low: 0x1A5_E380,
            ..HOLDS
        },
        false,
    ),
    (
        "a byte that takes no carry",
        EncoderRegisters { held: 255, ..HOLDS },
        false,
    ),
    (
        "a byte that is not held",
        EncoderRegisters { held: 1, ..ENCODER },
        false,
    ),
    (
        "more bytes than pixels fill",
        EncoderRegisters { zeros: 4, ..HOLDS },
        false,
    ),
    (
        "too many pixels",
        EncoderRegisters {
            events: MAX_EVENTS + 1,
            ..ENCODER
        },
        false,
    ),
    (
        "the greatest numbers",
        EncoderRegisters {
            low: 0xFFFF_FFFF_FFFF_FF80,
            zeros: u64::MAX,
            ones: u64::MAX,
            events: MAX_EVENTS,
            ..HOLDS
        },
        false,
    ),
];

#[test]
fn encoders_of_any_numbers(rt: HostRuntime) {
    for &(name, numbers, is) in &ENCODERS {
        assert!(rt; is_encoder(numbers) == is, "{name}");
    }
}
