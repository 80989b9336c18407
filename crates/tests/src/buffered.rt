//! An input that reads ahead: its buffered bytes, and its reads.

ghost use Rattle.std.specs.Prelude.{◌<◌, ◌≤◌};

use pbm_core::trial::Pieces;
use pbm_core::{Buffered, DeviceFailed, Form, Input, PbmFault, read_header, read_row};

/// The result of a read of this many of these bytes, which arrive three at a time, and the bytes that are then buffered
/// and can be passed.
fn held_after(
    count: usize,
    pass: usize,
    failing: Option<u64>,
) -> (Result<usize, DeviceFailed>, usize, bool, u64, u64) {
    let mut reader = Pieces::new(b"abcdefg", 3, failing);
    let mut input = Buffered::new(&mut reader);
    let mut bytes = [0; 8];
    let answer = input.read(&mut bytes[..count.min(8)]);
    let held = input.held().len();
    let passes = input.pass(pass);
    (answer, held, passes, input.left(), input.failures())
}

#[test]
fn what_came_is_held(rt: HostRuntime) {
    assert!(rt; held_after(1, 2, None) == (Ok(1), 2, true, 4, 0));
    // More than is buffered is not passed, and nothing is read for it.
    assert!(rt; held_after(1, 3, None) == (Ok(1), 2, false, 6, 0));
    assert!(rt; held_after(8, 0, None) == (Ok(3), 0, true, 4, 0));
    // No byte is needed.
    assert!(rt; held_after(0, 1, Some(1)) == (Ok(0), 0, false, 7, 0));
    assert!(rt; held_after(1, 0, Some(1)) == (Err(DeviceFailed), 0, true, 7, 1));
}

/// The results of a call of `fill`, of the next byte and of two more calls, for five bytes, of which three arrive at
/// once, and the number of bytes that are then buffered.
fn filled(
    failing: Option<u64>,
) -> (
    Result<usize, DeviceFailed>,
    Option<u8>,
    Result<usize, DeviceFailed>,
    Result<usize, DeviceFailed>,
    usize,
) {
    let mut reader = Pieces::new(b"abcde", 3, failing);
    let mut input = Buffered::new(&mut reader);
    let first = input.fill();
    let byte = input.next_held();
    let second = input.fill();
    let third = input.fill();
    (first, byte, second, third, input.held().len())
}

#[test]
fn more_is_read_behind_what_is_held(rt: HostRuntime) {
    assert!(rt; filled(None) == (Ok(3), Some(b'a'), Ok(2), Ok(0), 4));
    // A read that failed leaves what is buffered.
    assert!(rt; filled(Some(2)) == (Ok(3), Some(b'a'), Err(DeviceFailed), Ok(2), 4));
}

#[test]
fn other_inputs_hold_nothing(rt: HostRuntime) {
    let mut input = Pieces::new(b"ab", 1, None);
    assert!(rt; (input.held().len(), input.pass(1), input.rest) == (0, false, b"ab".as_slice()));
}

/// The bytes of a plain image of one row of twelve pixels, 1011 0000 1111, from the start of a comment of this many
/// letters.
const TAIL: &[u8] = b"\n12 1\n1 01 1\t00001 111";

/// The error, or the row, of an image whose header has a comment of this many letters.
fn row_behind(comment: usize, most: usize, failing: Option<u64>) -> Result<[u8; 2], PbmFault>
    requires fits { comment ≤ 4200 }
    requires some { 0 < most }
{
    let mut text = [b'c'; 4300];
    text[..3].copy_from_slice(b"P1#");
    let end = 3 + comment;
    text[end..end + TAIL.len()].copy_from_slice(TAIL);
    let mut reader = Pieces::new(&text[..end + TAIL.len()], most, failing);
    let mut input = Buffered::new(&mut reader);
    let (size, form) = read_header(&mut input)?;
    if size.width != 12 || form != Form::Plain {
        return Ok([0; 2]);
    }
    let mut row = [0; 2];
    read_row(&mut input, size, form, &mut row)?;
    Ok(row)
}

/// The buffer ends at each byte of the header and of the row.
#[test]
fn the_array_ends_anywhere(rt: HostRuntime) {
    for comment in 4060..4100usize {
        for &most in &[7, 4096, 5000] {
            let row = row_behind(comment, most, None);
            assert!(rt; row == Ok(*b"\xb0\xf0"), "{comment} {most}");
        }
    }
}

/// A second read is made only if bytes are needed.
#[test]
fn the_second_read_fails(rt: HostRuntime) {
    for comment in 4060..4100usize {
        let wanted = if 3 + comment + TAIL.len() <= 4096 {
            Ok(*b"\xb0\xf0")
        } else {
            Err(PbmFault::Read)
        };
        assert!(rt; row_behind(comment, 5000, Some(2)) == wanted, "{comment}");
    }
}
