//! An encoder writes a long run of ones, carries through another, and omits a long run of zeros.

use crate::coder::{Script, black_everywhere, codes, next};
use qm_core::{Decoder, Learned, Pulled, Stop};

/// The pixels of a code in the contexts 0 to 1,022.
fn pixels_everywhere(answers: &[Pulled]) -> Option<[(u16, bool); 1023]> {
    let mut source = Script::new(answers);
    let mut learned = Learned::new();
    let mut decoder = Decoder::start();
    let mut events = [(0, false); 1023];
    for n in 0..1023u16 {
        match next(&mut decoder, &mut learned, n, &mut source) {
            Ok(pixel) => events[n as usize] = (n, pixel),
            Err(Stop) => return None,
        }
    }
    Some(events)
}

#[test]
fn codes_a_long_run_of_ones(rt: HostRuntime) {
    let mut expected = [0xFF; 256];
    for i in 0..128usize {
        expected[2 * i + 1] = 0x00;
    }
    assert!(rt; codes(&mut Learned::new(), &black_everywhere(), &expected));
}

/// Whether the pixels of a code in the contexts 0 to 1,022 are encoded to these bytes.
fn recodes(answers: &[Pulled], expected: &[u8]) -> bool {
    match pixels_everywhere(answers) {
        Some(events) => codes(&mut Learned::new(), &events, expected),
        None => false,
    }
}

#[test]
fn codes_a_long_carry(rt: HostRuntime) {
    assert!(rt; recodes(&[Pulled::Byte(0x80), Pulled::End], &[0x80]));
}

#[test]
fn codes_long_zeros(rt: HostRuntime) {
    assert!(rt; recodes(&[Pulled::End], &[]));
}
