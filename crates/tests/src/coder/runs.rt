//! A coder encodes or decodes a run of pixels at once.

ghost use Rattle.std.specs.Prelude.{◌≤◌};

use crate::coder::{Room, Script, finish, next, put};
use qm_core::{Context, Decoder, Encoder, Learned, Pulled};

/// Encodes n white pixels in context 0 at once.
fn skip(encoder: &mut Encoder, learned: &Learned, count: u32) -> bool
    requires { count ≤ 64 }
{
    encoder.events() < 10_000 && encoder.skip(learned, Context::of(0), false, count)
}

/// Whether five, or four, more white pixels are encoded at once after the first four, whether the code is then that of
/// eight, and how many were encoded.
fn passes_four() -> (bool, bool, bool, u64) {
    let mut learned = Learned::new();
    let mut encoder = Encoder::start();
    let mut out = Room::new(1);
    for _ in 0..4 {
        put(&mut encoder, &mut learned, 0, false, &mut out).ok();
    }
    let five = skip(&mut encoder, &learned, 5);
    let four = skip(&mut encoder, &learned, 4);
    let events = encoder.events();
    let ended = finish(encoder, &mut out).is_ok() && out.bytes() == [0x60].as_slice();
    (five, four, ended, events)
}

#[test]
fn codes_a_run_at_once(rt: HostRuntime) {
    assert!(rt; passes_four() == (false, true, true, 8));
}

/// Whether five, or four, more white pixels are decoded at once after the first four of a code, and how often the
/// source is asked then.
fn passes(answers: &[Pulled]) -> (bool, bool, bool, u64) {
    let mut source = Script::new(answers);
    let mut learned = Learned::new();
    let mut decoder = Decoder::start();
    let early = decoder.skip(&learned, Context::of(0), false, 0);
    for _ in 0..4 {
        next(&mut decoder, &mut learned, 0, &mut source).ok();
    }
    let five = decoder.skip(&learned, Context::of(0), false, 5);
    let four = decoder.skip(&learned, Context::of(0), false, 4);
    (early, five, four, source.asked)
}

#[test]
fn decodes_a_run_at_once(rt: HostRuntime) {
    assert!(rt; passes(&[Pulled::Byte(0x60), Pulled::End]) == (false, false, true, 2));
}
