//! A coder stops when its source or its sink fails.

ghost use Rattle.std.specs.Prelude.{◌≤◌};

use crate::coder::{Room, Script, black_everywhere, code, finish, next, put};
use qm_core::{CodeBytes, CodeSink, CoderFault, Context, Decoder, Encoder, Learned, Pulled, Stop};

/// The effect of the next pixel in context n: the result, the states of contexts 0 and n, and the number of times that
/// the source was asked and failed.
fn told(
    decoder: &mut Decoder,
    learned: &mut Learned,
    n: u16,
    source: &mut Script,
) -> (Result<bool, Stop>, (u8, bool), (u8, bool), u64, u64) {
    let answer = next(decoder, learned, n, source);
    let first = learned.state(Context::of(0));
    let state = learned.state(Context::of(n % 1024));
    (answer, first, state, source.asked, source.failures())
}

#[test]
fn stops_at_a_fault_and_stays_stopped(rt: HostRuntime) {
    let answers = [
        Pulled::Byte(0xF0),
        Pulled::Byte(0),
        Pulled::Fault,
        Pulled::Byte(0),
    ];
    let mut source = Script::new(&answers);
    let mut learned = Learned::new();
    let mut decoder = Decoder::start();
    assert!(rt; next(&mut decoder, &mut learned, 0, &mut source) == Ok(true));
    for &n in &[1, 5] {
        assert!(rt;
            told(&mut decoder, &mut learned, n, &mut source)
                == (Err(Stop), (1, true), (0, false), 3, 1)
        );
    }
}

/// The errors of 24 pixels and of the end, for a sink with space for this many bytes, and how often it failed.
fn faults(limit: usize) -> ([Option<CoderFault>; 24], Option<CoderFault>, u64)
    requires { limit ≤ 512 }
{
    let mut out = Room::new(limit);
    let mut learned = Learned::new();
    let mut encoder = Encoder::start();
    let mut faults = [None; 24];
    for n in 0..24u16 {
        let put = put(&mut encoder, &mut learned, n, n % 2 == 0, &mut out);
        faults[n as usize] = put.err();
    }
    let last = finish(encoder, &mut out).err();
    (faults, last, out.failures())
}

#[test]
fn fails_once_and_stays_failed(rt: HostRuntime) {
    let (faults, last, failures) = faults(0);
    let mut writes = 0u32;
    let mut failed = false;
    for fault in faults {
        match fault {
            None => assert!(rt; !failed),
            Some(CoderFault::Write) => {
                assert!(rt; !failed);
                failed = true;
            }
            Some(CoderFault::Failed) => assert!(rt; failed),
        }
        writes = writes.saturating_add(u32::from(fault == Some(CoderFault::Write)));
    }
    assert!(rt; writes == 1);
    assert!(rt; last == Some(CoderFault::Failed));
    assert!(rt; failures == 1);
}

#[test]
fn fails_at_the_end(rt: HostRuntime) {
    let mut out = Room::new(0);
    let mut learned = Learned::new();
    let mut encoder = Encoder::start();
    assert!(rt; encoder.put(&mut learned, Context::of(0), true, &mut out) == Ok(()));
    assert!(rt; encoder.events() == 1);
    assert!(rt; encoder.finish(&mut out) == Err(CoderFault::Write));
    assert!(rt; out.failures() == 1);
}

#[test]
fn fails_in_mid_stream(rt: HostRuntime) {
    let mut out = Room::new(5);
    let coded = code(&mut Learned::new(), &black_everywhere(), &mut out);
    assert!(rt; coded == Err(CoderFault::Write));
    assert!(rt; out.bytes() == [0xFF, 0x00, 0xFF, 0x00, 0xFF].as_slice());
    assert!(rt; out.failures() == 1);
}
