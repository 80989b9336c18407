ghost use Rattle.std.specs.Prelude.{◌-◌};

use pbm_core::trial::{Drip, Pieces};
use pbm_core::{
    DeviceFailed, Form, FromRead, Input, Output, PbmFault, Size, ToWrite, WriteFault, read_header,
    read_row, write_header, write_row,
};
use std::io;

/// A reader and a writer that is interrupted at its first call, and moves nothing at its second. Its first flush fails.
#[derive(Drop)]
struct Fitful {
    calls: u32,
    flushes: u32,
}

impl Fitful {
    fn new() -> Fitful {
        Fitful {
            calls: 0,
            flushes: 0,
        }
    }
}

impl io::Read for Fitful {
    fn read(&mut self, buf: &mut [u8]) -> io::Result<usize> {
        self.calls = self.calls.saturating_add(1);
        if self.calls == 1 {
            return Err(io::Error::from(io::ErrorKind::Interrupted));
        }
        buf.fill(b'x');
        Ok(buf.len())
    }
}

impl io::Write for Fitful {
    fn write(&mut self, buf: &[u8]) -> io::Result<usize> {
        self.calls = self.calls.saturating_add(1);
        match self.calls {
            1 => Err(io::Error::from(io::ErrorKind::Interrupted)),
            2 => Ok(0),
            _ => Ok(buf.len()),
        }
    }

    fn flush(&mut self) -> io::Result<()> {
        self.flushes = self.flushes.saturating_add(1);
        if self.flushes == 1 {
            return Err(io::Error::from(io::ErrorKind::TimedOut));
        }
        Ok(())
    }
}

/// The effect of a read: its result, the buffer, the count of failures, and the number of bytes left.
fn read<R: Input, const N: usize>(
    input: &mut R,
    mut buf: [u8; N],
) -> (Result<usize, DeviceFailed>, [u8; N], u64, u64) {
    let answer = input.read(&mut buf);
    (answer, buf, input.failures(), input.left())
}

/// The number of reads that give the results of these rows, from the first on.
fn reads<R: Input, const N: usize>(
    input: &mut R,
    buf: [u8; N],
    wanted: &[(Result<usize, DeviceFailed>, [u8; N], u64, u64)],
) -> usize {
    let mut met = 0;
    for &row in wanted {
        if read(input, buf) != row {
            return met;
        }
        met = met.saturating_add(1);
    }
    met
}

fn write<W: Output>(output: &mut W, bytes: &[u8]) -> Result<usize, DeviceFailed> {
    output.write(bytes)
}

fn flush<W: Output>(output: &mut W) -> Result<usize, DeviceFailed> {
    output.flush().and(Ok(0))
}

/// The effect of a call: the number of bytes accepted, and the count of failures. Bytes are written; without bytes the
/// output is flushed.
fn done<W: Output>(output: &mut W, call: Option<&[u8]>) -> (Result<usize, DeviceFailed>, u64) {
    let answer = match call {
        Some(bytes) => write(output, bytes),
        None => flush(output),
    };
    (answer, output.failures())
}

#[test]
fn an_error_of_a_reader_is_one_failure(rt: HostRuntime) {
    let mut input = FromRead::new(Fitful::new());
    let header = read_header(&mut input);
    // Nothing is tried again.
    assert!(rt;
        (header, input.reader.calls, input.failures(), input.left())
            == (Err(PbmFault::Read), 1, 1, u64::MAX)
    );
    let wanted = [(Ok(3), *b"xxx", 1, u64::MAX - 3)];
    assert!(rt; reads(&mut input, [0; 3], &wanted) == 1);
}

#[test]
fn nothing_is_left_to_read(rt: HostRuntime) {
    let mut input = FromRead::new(b"abcde".as_slice());
    input.left = 2;
    let wanted = [(Ok(2), *b"ab\0\0", 0, 0), (Err(DeviceFailed), [0; 4], 1, 0)];
    assert!(rt; reads(&mut input, [0; 4], &wanted) == 2);
    assert!(rt; input.reader == b"cde".as_slice());
}

/// The size of a PBM of one row of nine pixels.
const WIDE: Size = Size {
    width: 9,
    height: 1,
};

/// The result of reading a row of nine pixels, the row, and the number of bytes left.
fn row_of_nine<R: Input>(input: &mut R) -> (Result<(), PbmFault>, [u8; 2], u64) {
    let mut row = [0; 2];
    let answer = read_row(input, WIDE, Form::Raw, &mut row);
    (answer, row, input.left())
}

#[test]
fn readers_of_std_are_read(rt: HostRuntime) {
    let mut input = FromRead::new(b"P4 9 1 \xff\xff\xff".as_slice());
    let header = read_header(&mut input);
    assert!(rt; (header, input.reader) == (Ok((WIDE, Form::Raw)), b"\xff\xff\xff".as_slice()));
    let row = row_of_nine(&mut input);
    assert!(rt; row == (Ok(()), *b"\xff\x80", u64::MAX - 9));
}

/// Calls of an output over `Fitful`, their results, and the numbers of writes and flushes, and of those that failed.
static FITFUL: [(Option<&[u8]>, Result<usize, DeviceFailed>, u32, u32, u64); 5] = [
    // Nothing is tried again.
    (Some(b"ab"), Err(DeviceFailed), 1, 0, 1),
    // Nothing was accepted.
    (Some(b"ab"), Err(DeviceFailed), 2, 0, 2),
    (Some(b"ab"), Ok(2), 3, 0, 2),
    // A flush reaches the writer.
    (None, Err(DeviceFailed), 3, 1, 3),
    (None, Ok(0), 3, 2, 3),
];

#[test]
fn errors_of_a_writer_are_failures(rt: HostRuntime) {
    let mut output = ToWrite::new(Fitful::new());
    for &(call, answer, calls, flushes, failures) in &FITFUL {
        let found = done(&mut output, call);
        assert!(rt;
            (found, output.writer.calls, output.writer.flushes)
                == ((answer, failures), calls, flushes),
            "{call:?}"
        );
    }
}

/// Writes the header of two rows of nine pixels, and the first of them.
fn write_nine<W: Output>(output: &mut W) -> Result<(), WriteFault> {
    let size = Size {
        width: 9,
        height: 2,
    };
    write_header(output, size)?;
    write_row(output, size, b"\x12\x80")
}

#[test]
fn writers_of_std_are_written(rt: HostRuntime) {
    let mut output = ToWrite::new(Vec::new(rt.alloc()));
    assert!(rt; write_nine(&mut output) == Ok(()));
    assert!(rt; output.writer.as_slice() == b"P4\n9 2\n\x12\x80".as_slice());
}

#[test]
fn a_slice_is_written_until_it_is_full(rt: HostRuntime) {
    let mut held = [0; 4];
    let mut full = ToWrite::new(held.as_mut_slice());
    let answer = write_nine(&mut full);
    let failures = full.failures();
    assert!(rt; (answer, failures, held) == (Err(WriteFault), 1, *b"P4\n9"));
}

/// Reads of five bytes, two at a time, of which the third fails.
static READS: [(Result<usize, DeviceFailed>, [u8; 4], u64, u64); 6] = [
    (Ok(2), *b"ab..", 0, 3),
    (Ok(2), *b"cd..", 0, 1),
    (Err(DeviceFailed), *b"....", 1, 1),
    (Ok(1), *b"e...", 1, 0),
    (Ok(0), *b"....", 1, 0),
    (Ok(0), *b"....", 1, 0),
];

#[test]
fn pieces_are_small_and_one_read_fails(rt: HostRuntime) {
    let mut input = Pieces::new(b"abcde", 2, Some(3));
    assert!(rt; reads(&mut input, *b"....", &READS) == READS.len());
    let mut whole = Pieces::new(b"abcde", 4096, None);
    assert!(rt; reads(&mut whole, *b"...", &[(Ok(3), *b"abc", 0, 2)]) == 1);
}

/// Calls of an output with space for five bytes, whose second write and each flush fail: the results, the output, and
/// the count of failures.
static DRIPS: [(Option<&[u8]>, Result<usize, DeviceFailed>, &[u8], u64); 8] = [
    (Some(b"abc"), Ok(2), b"ab", 0),
    (Some(b"abc"), Err(DeviceFailed), b"ab", 1),
    (Some(b"abc"), Ok(2), b"abab", 1),
    (Some(b"abc"), Ok(1), b"ababa", 1),
    (Some(b"abc"), Err(DeviceFailed), b"ababa", 2),
    (Some(b"abc"), Err(DeviceFailed), b"ababa", 3),
    (Some(b""), Ok(0), b"ababa", 3),
    (None, Err(DeviceFailed), b"ababa", 4),
];

#[test]
fn a_drip_takes_little_until_it_is_full(rt: HostRuntime) {
    let mut held = *b".....";
    let mut output = Drip::new(&mut held, 2, Some(2), true);
    for &(call, answer, bytes, failures) in &DRIPS {
        assert!(rt; done(&mut output, call) == (answer, failures), "{call:?}");
        assert!(rt; output.written() == bytes, "{call:?}");
    }
}

#[test]
fn a_drip_tells_whether_it_is_flushed(rt: HostRuntime) {
    let mut held = [0; 2];
    let mut output = Drip::new(&mut held, 1, None, false);
    let answer = done(&mut output, Some(b"abc"));
    assert!(rt; (answer, output.flushed) == ((Ok(1), 0), false));
    let answer = done(&mut output, None);
    assert!(rt; (answer, output.flushed) == ((Ok(0), 0), true));
}
