//! Both programs convert images and comments that are longer than their buffers.

use crate::trial::Bytes::{Hex, Image};
use crate::trial::{Run, Tall, goes_there_and_back};
use program_core::LineFault;
use std::alloc::Global;
use std::test::Fail;

/// Whether an image is encoded to this stream, and decoded from it.
fn codes<'a>(
    alloc: Global,
    words: &'a [&'a str],
    size: &'a str,
    rows: &'a str,
    hex: &'a str,
) -> Result<bool, LineFault> {
    let run = Run {
        words,
        input: Image(size, rows),
        reads: 0,
        output: Hex(hex),
        fault: None,
    };
    goes_there_and_back(alloc, run)
}

fn codes_tall(alloc: Global) -> Result<bool, LineFault> {
    let Tall { rows, hex } = Tall::new(alloc)?;
    codes(
        alloc,
        &["pbmtojbg85", "-s", "1", "-r"],
        Tall::SIZE,
        &rows,
        &hex,
    )
}

/// More rows than a buffer holds, and a stream of more bytes.
#[test]
fn codes_a_tall_image(rt: HostRuntime) -> Result<(), Fail> {
    assert!(rt; codes_tall(rt.alloc())?);
    Ok(())
}

/// Whether an image with a comment of 5,000 letters is encoded.
fn codes_comment(alloc: Global) -> Result<bool, LineFault> {
    let comment = "A".repeat(alloc, 5000)?;
    let digits = "41".repeat(alloc, 5000)?;
    let hex = format!(in alloc;
        "00000100 00000008 00000001 00000080 00 0000 00 FF07 00001388 {digits} 60 FF02"
    )?;
    let words = ["pbmtojbg85", "-p", "0", "-C", &comment];
    codes(alloc, &words, "8 1", "00", &hex)
}

/// A comment longer than the buffer is written, and skipped.
#[test]
fn codes_a_long_comment(rt: HostRuntime) -> Result<(), Fail> {
    assert!(rt; codes_comment(rt.alloc())?);
    Ok(())
}
