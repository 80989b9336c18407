//! The coder encodes and decodes examples that were worked out by hand.

use crate::coder::{Script, codes, next};
use qm_core::{Decoder, Learned, Pulled};

/// Whether a decoder returns these pixels in these contexts, and has then asked its source this often.
fn decodes(answers: &[Pulled], events: &[(u16, bool)], asked: u64) -> bool {
    let mut source = Script::new(answers);
    let mut learned = Learned::new();
    let mut decoder = Decoder::start();
    for &(n, pixel) in events {
        if next(&mut decoder, &mut learned, n, &mut source) != Ok(pixel) {
            return false;
        }
    }
    source.asked == asked
}

const BLACK_ROW: [(u16, bool); 8] = [
    (0, true),
    (1, true),
    (3, true),
    (3, true),
    (3, true),
    (3, true),
    (3, true),
    (3, true),
];

/// Codes, their pixels, and the number of times that the source is asked for them.
pub static DECODED: [(&str, &[Pulled], &[(u16, bool)], u64); 5] = [
    ("an empty code", &[Pulled::End], &[(0, false), (1, true)], 1),
    (
        "white",
        &[Pulled::Byte(0x60), Pulled::End],
        &[(0, false); 8],
        2,
    ),
    (
        "three bytes and no fault",
        &[
            Pulled::Byte(0xF0),
            Pulled::Byte(0),
            Pulled::Byte(0),
            Pulled::Fault,
        ],
        &BLACK_ROW,
        3,
    ),
    (
        "a second row",
        &[Pulled::Byte(0xF0), Pulled::End],
        &[
            (0, true),
            (1, true),
            (3, true),
            (3, true),
            (3, true),
            (3, true),
            (3, true),
            (3, true),
            (0x01C, false),
            (0x03C, false),
            (0x07C, true),
            (0x07D, true),
            (0x07F, false),
            (0x07E, false),
            (0x078, true),
            (0x071, false),
        ],
        2,
    ),
    (
        "a column",
        &[Pulled::Byte(0xC0), Pulled::End],
        &[
            (0x000, true),
            (0x010, false),
            (0x100, true),
            (0x010, false),
            (0x100, true),
        ],
        2,
    ),
];

#[test]
fn codes_are_decoded(rt: HostRuntime) {
    for &(name, answers, events, asked) in &DECODED {
        assert!(rt; decodes(answers, events, asked), "{name}");
    }
}

/// Events and their codes. Those of a line are encoded in turn, each with the context states that the previous ones
/// left.
static CODED: [(&str, &[(&[(u16, bool)], &[u8])]); 13] = [
    ("nothing", &[(&[], &[])]),
    ("white", &[(&[(0, false); 8], &[0x60])]),
    ("1 black pixel", &[(&[(0, true)], &[0xC0])]),
    ("2 black pixels", &[(&[(0, true), (1, true)], &[0xE0])]),
    (
        "6 black pixels",
        &[(
            &[
                (0, true),
                (1, true),
                (2, true),
                (3, true),
                (4, true),
                (5, true),
            ],
            &[0xFE],
        )],
    ),
    (
        "7 black pixels",
        &[(
            &[
                (0, true),
                (1, true),
                (2, true),
                (3, true),
                (4, true),
                (5, true),
                (6, true),
            ],
            &[0xFF, 0x00],
        )],
    ),
    (
        "9 black pixels",
        &[(
            &[
                (0, true),
                (1, true),
                (2, true),
                (3, true),
                (4, true),
                (5, true),
                (6, true),
                (7, true),
                (8, true),
            ],
            &[0xFF, 0x00, 0xC0],
        )],
    ),
    ("a black row", &[(&BLACK_ROW, &[0xF0])]),
    (
        "a black row of two lines",
        &[(
            &[
                (0x000, true),
                (0x001, true),
                (0x060, true),
                (0x0C1, true),
                (0x060, true),
                (0x0C1, true),
            ],
            &[0xF8],
        )],
    ),
    (
        "a black row, the adaptive pixel moved",
        &[(
            &[
                (0x000, true),
                (0x001, true),
                (0x003, true),
                (0x007, true),
                (0x007, true),
                (0x007, true),
                (0x007, true),
                (0x007, true),
            ],
            &[0xF8],
        )],
    ),
    (
        "one context",
        &[(&[(0x0E5, false), (0x0E5, true), (0x0E5, true)], &[])],
    ),
    (
        "a context that is kept",
        &[
            (&[(0x0E5, true), (0x000, true)], &[0xE0]),
            (&[(0x0E5, false)], &[0xE0]),
        ],
    ),
    (
        "a second row",
        &[
            (&BLACK_ROW, &[0xF0]),
            (
                &[
                    (0x018, true),
                    (0x039, true),
                    (0x07B, true),
                    (0x07F, true),
                    (0x07F, true),
                    (0x07F, true),
                    (0x07F, true),
                    (0x077, true),
                ],
                &[0xF8],
            ),
        ],
    ),
];

/// Whether events are encoded in turn to their bytes.
fn codes_in_turn(codes_of: &[(&[(u16, bool)], &[u8])]) -> bool {
    let mut learned = Learned::new();
    for &(events, expected) in codes_of {
        if !codes(&mut learned, events, expected) {
            return false;
        }
    }
    true
}

#[test]
fn events_are_coded(rt: HostRuntime) {
    for &(name, codes_of) in &CODED {
        assert!(rt; codes_in_turn(codes_of), "{name}");
    }
}
