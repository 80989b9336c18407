//! Facts that no contract of the engine states: the texts of errors, and its header on values from outside.

use pbm_core::PbmFault;
use pbm_core::trial::{Drip, Pieces};
use std::alloc::{AllocError, Global};
use std::fmt::Display;
use std::test::Fail;
use t85_core::{Fault, Header, info};

/// The header of a stream of two typical rows, one black pixel wide, in stripes of one row.
const HEADER: [u8; 20] = [0, 0, 1, 0, 0, 0, 0, 1, 0, 0, 0, 2, 0, 0, 0, 1, 0, 0, 0, 8];

/// Whether an error has this text.
fn shows<F: Display>(alloc: Global, fault: &F, text: &str) -> Result<bool, AllocError> {
    let shown = format!(in alloc; "{fault}")?;
    Ok(shown.as_str() == text)
}

/// The errors, their numbers and their texts.
static FAULTS: [(Fault, u8, &str); 30] = [
    (Fault::ShortHeader, 1, "header is shorter than 20 bytes"),
    (
        Fault::ReservedBits,
        2,
        "reserved bits of the header are set",
    ),
    (Fault::Layers, 3, "differential layers are not supported"),
    (Fault::Planes, 4, "number of planes is not one"),
    (Fault::ZeroSize, 5, "width, height or stripe length is zero"),
    (Fault::TooWide, 6, "image is wider than 1048576"),
    (Fault::MoveRange, 7, "adaptive pixel range is above 127"),
    (
        Fault::PrivateTable,
        8,
        "private prediction table is not supported",
    ),
    (Fault::Truncated, 9, "input ends too early"),
    (Fault::BadEscape, 10, "unexpected escape code"),
    (Fault::Aborted, 11, "image was aborted"),
    (Fault::MoveRefused, 12, "adaptive pixel move is not allowed"),
    (
        Fault::SecondMove,
        13,
        "second adaptive pixel move in a stripe",
    ),
    (Fault::LengthRefused, 14, "new height is not allowed"),
    (Fault::Read, 17, "input cannot be read"),
    (Fault::Write, 18, "output cannot be written"),
    (Fault::OutOfMemory, 19, "out of memory"),
    (Fault::SecondLength, 15, "second new height"),
    (Fault::Changed, 16, "input changed between the two readings"),
    (
        Fault::AnnouncedLow,
        23,
        "announced height is below the image's height",
    ),
    (
        Fault::VariableHeight,
        25,
        "variable height needs an input file",
    ),
    (
        Fault::OptionBits,
        20,
        "options field has a bit outside 0x68",
    ),
    (Fault::StripeZero, 21, "stripe length is zero"),
    (Fault::MoveLarge, 22, "-m is above 127"),
    (
        Fault::TooManyRows,
        24,
        "image has more rows than --max-rows",
    ),
    (Fault::CommentLong, 26, "comment is too long"),
    (
        Fault::Pbm(PbmFault::TooWide),
        34,
        "PBM is wider than 1048576",
    ),
    (Fault::Pbm(PbmFault::Truncated), 36, "PBM ends too early"),
    (Fault::Pbm(PbmFault::Read), 37, "input cannot be read"),
    (
        Fault::Pbm(PbmFault::BadDigit),
        38,
        "PBM raster has a byte that is no digit",
    ),
];

#[test]
fn faults_have_numbers_and_texts(rt: HostRuntime) -> Result<(), Fail> {
    for &(fault, number, text) in &FAULTS {
        let met = shows(rt.alloc(), &fault, text)?;
        assert!(rt; met && fault.number() == number, "{text}");
    }
    Ok(())
}

/// The errors of a PBM, their numbers and their texts.
static PBM_FAULTS: [(PbmFault, u8, &str); 8] = [
    (PbmFault::NotPbm, 1, "input is not a PBM bitmap"),
    (PbmFault::BadNumber, 2, "bad number in the PBM header"),
    (PbmFault::ZeroSize, 3, "PBM width or height is zero"),
    (PbmFault::TooWide, 4, "PBM is wider than 1048576"),
    (PbmFault::TooTall, 5, "PBM is taller than 4294967295"),
    (PbmFault::Truncated, 6, "PBM ends too early"),
    (PbmFault::Read, 7, "input cannot be read"),
    (
        PbmFault::BadDigit,
        8,
        "PBM raster has a byte that is no digit",
    ),
];

#[test]
fn pbm_faults_have_numbers_and_texts(rt: HostRuntime) -> Result<(), Fail> {
    for &(fault, number, text) in &PBM_FAULTS {
        let met = shows(rt.alloc(), &fault, text)?;
        assert!(rt; met && fault.number() == number, "{text}");
    }
    Ok(())
}

/// The width, the height, the stripe length, the range and the options of a header, and its bytes.
fn read_and_written(bytes: &[u8]) -> Result<((u32, u32, u32, u8, u8), [u8; 20]), Fault> {
    let header = Header::read(&mut Pieces::new(bytes, 3, None))?;
    let fields = (header.xd, header.yd, header.l0, header.mx, header.options);
    Ok((fields, header.bytes()))
}

#[test]
fn header_is_read_and_written(rt: HostRuntime) {
    let bytes = [
        0, 0, 1, 0, 0, 16, 0, 0, 255, 255, 255, 255, 0, 0, 0, 128, 127, 9, 15, 0x7d,
    ];
    let written = [
        0, 0, 1, 0, 0, 16, 0, 0, 255, 255, 255, 255, 0, 0, 0, 128, 127, 0, 0, 0x7d,
    ];
    assert!(rt;
        read_and_written(&bytes) == Ok(((1_048_576, 4_294_967_295, 128, 127, 0x7d), written))
    );
}

/// Each line sets one more byte of a header that is rejected; the earlier check decides.
static REFUSED: [(usize, u8, Fault); 7] = [
    (19, 0x0e, Fault::PrivateTable),
    (16, 128, Fault::MoveRange),
    (5, 17, Fault::TooWide),
    (11, 0, Fault::ZeroSize),
    (2, 2, Fault::Planes),
    (1, 1, Fault::Layers),
    (18, 16, Fault::ReservedBits),
];

#[test]
fn headers_are_refused_in_order(rt: HostRuntime) {
    let mut bytes = HEADER;
    for &(at, byte, fault) in &REFUSED {
        assert!(rt; at < 20);
        bytes[at] = byte;
        let answer = Header::read(&mut Pieces::new(&bytes, 20, None));
        assert!(rt; answer == Err(fault), "byte {at}");
    }
}

/// Whether `info` returns this result and reports this line.
fn tells(stream: &[u8], line: &[u8]) -> (Result<(), Fault>, bool) {
    let mut input = Pieces::new(stream, 4096, None);
    let mut held = [0; 64];
    let mut output = Drip::new(&mut held, 64, None, false);
    let answer = info(&mut input, &mut output);
    (answer, output.written() == line)
}

#[test]
fn info_tells_a_line(rt: HostRuntime) {
    let mut stream = [0; 26];
    stream[..20].copy_from_slice(&HEADER);
    stream[20..].copy_from_slice(&[0xe0, 0xff, 2, 0xe0, 0xff, 2]);
    assert!(rt; tells(&stream, b"1 2 1 0 8 2 2 0 0\n") == (Ok(()), true));
}
