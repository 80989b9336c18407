//! Coders are exported as numbers between any two pixels, and rebuilt.

mod decoders;
mod encoders;

use crate::coder::by_hand::DECODED;
use crate::coder::{
    Room, STANDARD_ANSWERS, STANDARD_CODE, Script, finish, next, put, standard_events,
};
use qm_core::{Decoder, DecoderRegisters, Encoder, EncoderRegisters, Learned, Pulled, Stop};

/// The result of the next pixel in context n for the decoder of these numbers, and its numbers then.
fn next_of(
    numbers: DecoderRegisters,
    learned: &mut Learned,
    n: u16,
    source: &mut Script,
) -> Option<(Result<bool, Stop>, DecoderRegisters)> {
    let mut decoder = Decoder::from_registers(numbers)?;
    let answer = next(&mut decoder, learned, n, source);
    Some((answer, decoder.registers()))
}

/// Whether the decoders of numbers return these pixels in these contexts, and how often the source is asked then.
fn decodes(answers: &[Pulled], events: &[(u16, bool)]) -> (bool, u64) {
    let mut source = Script::new(answers);
    let mut learned = Learned::new();
    let mut numbers = Decoder::start().registers();
    for &(n, pixel) in events {
        match next_of(numbers, &mut learned, n, &mut source) {
            Some((answer, then)) if answer == Ok(pixel) => numbers = then,
            _ => return (false, source.asked),
        }
    }
    (true, source.asked)
}

#[test]
fn decoders_go_on_from_their_numbers(rt: HostRuntime) {
    for &(name, answers, events, asked) in &DECODED {
        assert!(rt; decodes(answers, events) == (true, asked), "{name}");
    }
    assert!(rt; decodes(&STANDARD_ANSWERS, &standard_events()).0);
}

/// The numbers of the encoder after a pixel in context n, for the encoder of these numbers.
fn put_of(
    numbers: EncoderRegisters,
    learned: &mut Learned,
    n: u16,
    pixel: bool,
    out: &mut Room,
) -> Option<EncoderRegisters> {
    let mut encoder = Encoder::from_registers(numbers)?;
    put(&mut encoder, learned, n, pixel, out).ok()?;
    Some(encoder.registers())
}

/// Whether the encoders of numbers encode these events, and end the code.
fn codes(events: &[(u16, bool)], out: &mut Room) -> bool {
    let mut learned = Learned::new();
    let mut numbers = Encoder::start().registers();
    for &(n, pixel) in events {
        match put_of(numbers, &mut learned, n, pixel, out) {
            Some(then) => numbers = then,
            None => return false,
        }
    }
    match Encoder::from_registers(numbers) {
        Some(encoder) => finish(encoder, out).is_ok(),
        None => false,
    }
}

#[test]
fn encoders_go_on_from_their_numbers(rt: HostRuntime) {
    let mut out = Room::new(512);
    assert!(rt; codes(&standard_events(), &mut out));
    assert!(rt; out.bytes() == STANDARD_CODE.as_slice());
}

/// A decoder after a black pixel in a new context, of a code that begins with F0 00: the interval began at 0 with a size
/// of 0x1_0000, of which the upper 0x5A1D are for black, and was doubled once.
const DECODER: DecoderRegisters = DecoderRegisters {
    code: 2 * (128 * 0xF000 - 128 * (0x1_0000 - 0x5A1D)),
    span: 2 * 128 * 0x5A1D,
    bits: 15,
    has_ended: 0,
};

/// An encoder after the same pixel.
const ENCODER: EncoderRegisters = EncoderRegisters {
    low: 2 * 128 * (0x1_0000 - 0x5A1D),
    span: 2 * 128 * 0x5A1D,
    bits: 17,
    zeros: 0,
    has_held: false,
    held: 0,
    ones: 0,
    events: 1,
    has_failed: false,
};

/// The numbers of a decoder, and of an encoder, before a pixel and after a black one.
fn first_numbers() -> ([DecoderRegisters; 2], [EncoderRegisters; 2]) {
    let answers = [Pulled::Byte(0xF0), Pulled::Byte(0x00)];
    let mut source = Script::new(&answers);
    let mut decoder = Decoder::start();
    let before = decoder.registers();
    next(&mut decoder, &mut Learned::new(), 0, &mut source).ok();
    let mut out = Room::new(0);
    let mut encoder = Encoder::start();
    let empty = encoder.registers();
    put(&mut encoder, &mut Learned::new(), 0, true, &mut out).ok();
    ([before, decoder.registers()], [empty, encoder.registers()])
}

#[test]
fn first_numbers_by_hand(rt: HostRuntime) {
    let before = DecoderRegisters {
        code: 0,
        span: 0x80_0000,
        bits: 0,
        has_ended: 0,
    };
    let empty = EncoderRegisters {
        low: 0,
        span: 0x80_0000,
        bits: 16,
        events: 0,
        ..ENCODER
    };
    assert!(rt; first_numbers() == ([before, DECODER], [empty, ENCODER]));
}

/// The results of the first two pixels of a code if the second asks a source that fails, and of the second pixel for
/// the decoder rebuilt from its numbers then.
fn decodes_after_a_stop() -> [Option<Result<bool, Stop>>; 3] {
    let answers = [
        Pulled::Byte(0xF0),
        Pulled::Byte(0),
        Pulled::Fault,
        Pulled::Byte(0),
    ];
    let mut source = Script::new(&answers);
    let mut learned = Learned::new();
    let mut numbers = Decoder::start().registers();
    let mut given = [None; 3];
    for (i, n) in [0, 1, 1].into_iter().enumerate() {
        if let Some((answer, then)) = next_of(numbers, &mut learned, n, &mut source) {
            given[i] = Some(answer);
            numbers = then;
        }
    }
    given
}

#[test]
fn a_stop_is_no_number(rt: HostRuntime) {
    assert!(rt; decodes_after_a_stop() == [Some(Ok(true)), Some(Err(Stop)), Some(Ok(true))]);
}
