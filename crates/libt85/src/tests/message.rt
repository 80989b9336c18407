//! `t85_message` writes the text of each status.

use crate::t85_message;
use std::alloc::Global;
use t85_core::Fault;

static FAULTS: [Fault; 19] = [
    Fault::ShortHeader,
    Fault::ReservedBits,
    Fault::Layers,
    Fault::Planes,
    Fault::ZeroSize,
    Fault::TooWide,
    Fault::MoveRange,
    Fault::PrivateTable,
    Fault::Truncated,
    Fault::BadEscape,
    Fault::Aborted,
    Fault::MoveRefused,
    Fault::SecondMove,
    Fault::LengthRefused,
    Fault::SecondLength,
    Fault::OptionBits,
    Fault::StripeZero,
    Fault::AnnouncedLow,
    Fault::CommentLong,
];

/// Whether the text for an error's number is what the engine displays, also if only a part of it fits.
fn is_said(alloc: Global, fault: &Fault) -> bool {
    let text = match format!(in alloc; "{fault}") {
        Ok(text) => text,
        Err(_) => return false,
    };
    let shown = text.as_bytes();
    for size in 0..64 {
        let mut room = [0xaa; 64];
        let whole = t85_message(fault.number(), &mut room[..size]);
        let count = size.min(shown.len());
        if whole != shown.len() || &room[..count] != &shown[..count] {
            return false;
        }
    }
    true
}

#[test]
fn messages_of_streams_are_those_of_the_engine(rt: HostRuntime) {
    for fault in &FAULTS {
        assert!(rt; is_said(rt.alloc(), fault));
    }
}

/// Whether this is the text of a status.
fn says(status: u8, text: &[u8]) -> bool {
    let mut room = [0; 64];
    let whole = t85_message(status, &mut room);
    whole == text.len() && whole <= 64 && &room[..whole] == text
}

#[test]
fn other_statuses_have_texts(rt: HostRuntime) {
    assert!(rt; says(0, b"done"));
    assert!(rt; says(18, b"output does not fit in the buffer"));
    assert!(rt; says(19, b"window is shorter than three rows"));
    assert!(rt; says(22, b"adaptive pixel offset is out of range"));
    assert!(rt; says(24, b"image has more rows than the limit"));
    assert!(rt; says(33, b"width or height is zero"));
    assert!(rt; says(34, b"image is wider than 1048576"));
    assert!(rt; says(36, b"rows of the image are missing"));
    assert!(rt; says(50, b"struct is of another version"));
    assert!(rt; says(51, b"stride is shorter than a row"));
    assert!(rt; says(52, b"stream has no more parts"));
    assert!(rt; says(53, b"struct is not initialized"));
    assert!(rt; says(54, b"no more rows are accepted"));
    assert!(rt; says(55, b"row is shorter than its width"));
    assert!(rt; says(56, b"stripe is in progress"));
    assert!(rt; says(60, b"header was read"));
    assert!(rt; says(61, b"row was decoded"));
    assert!(rt; says(62, b"more bytes are needed"));
    assert!(rt; says(27, b"unknown status"));
    assert!(rt; says(255, b"unknown status"));
}
