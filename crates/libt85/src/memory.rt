//! Caller-supplied memory as devices.

ghost use Rattle.std.specs.Prelude.{◌≡◌, ◌≤◌, ◌<◌, ◌-◌, ◌++◌, [], Some, None, length, take, is_some, true, option_to_list};

use devices::{DeviceFailed, Input, Output, WriteFault, write_bytes};
use t85_core::{Fault, RowSink};

/// An input over bytes that are all available.
#[derive(Drop)]
pub struct Whole<'a> {
    pub rest: &'a [u8],
}

impl Input for Whole<'_> {
    ghost view = { λ s. record {
      remaining = Some s.rest.now;
      held = [];
      left = length s.rest.now;
      failures = 0;
      source = 0;
    } };

    fn failures(&self) -> u64 {
        0
    }

    fn left(&self) -> u64 {
        self.rest.len() as u64
    }

    fn read(&mut self, buf: &mut [u8]) -> Result<usize, DeviceFailed> {
        let count = buf.len().min(self.rest.len());
        let (front, rest) = self.rest.split_at(count);
        buf[..count].copy_from_slice(front);
        self.rest = rest;
        Ok(count)
    }
}

/// An output into a buffer. When the buffer is full, it accepts one more byte, which is discarded, and then fails: that
/// distinguishes a text that is longer than the buffer from one that just fits.
#[derive(Drop)]
pub struct Room<'a> {
    pub bytes: &'a mut [u8],
    pub len: usize,
    /// The first byte that did not fit.
    pub spilled: Option<u8>,
    pub flushed: bool,
    /// The number of flushes requested, modulo 2^64.
    pub flushes: u64,
    /// The number of writes that failed, modulo 2^64.
    pub failures: u64,
    ghost within: { len ≤ length bytes.now },
    ghost spilled_last: { is_some spilled ≡ true → len ≡ length bytes.now },
    ghost full: { 0 < failures → is_some spilled ≡ true },
}

impl<'a> Room<'a> {
    pub fn new(bytes: &'a mut [u8]) -> Room<'a>
        ensures empty { result.len ≡ 0 }
        ensures room { result.bytes ≡ bytes.entry }
        ensures unspilled { result.spilled ≡ None }
        ensures failures { result.failures ≡ 0 }
    {
        Room {
            bytes,
            len: 0,
            spilled: None,
            flushed: false,
            flushes: 0,
            failures: 0,
        }
    }
}

impl Output for Room<'_> {
    ghost view = { λ s. record {
      contents = Some (take s.len s.bytes.now ++ option_to_list s.spilled);
      flushed = s.flushed;
      target = s.bytes.ghost_name;
      flushes = s.flushes;
      failures = s.failures;
    } };

    fn failures(&self) -> u64 {
        self.failures
    }

    fn write(&mut self, buf: &[u8]) -> Result<usize, DeviceFailed> {
        if buf.is_empty() {
            return Ok(0);
        }
        let count = buf.len().min(self.bytes.len() - self.len);
        if count > 0 {
            let end = self.len + count;
            self.bytes[self.len..end].copy_from_slice(&buf[..count]);
            self.len = end;
            self.flushed = false;
            return Ok(count);
        }
        if self.spilled.is_some() {
            self.failures = self.failures.wrapping_add(1);
            return Err(DeviceFailed);
        }
        self.spilled = Some(buf[0]);
        self.flushed = false;
        Ok(1)
    }

    fn flush(&mut self) -> Result<(), DeviceFailed> {
        self.flushes = self.flushes.wrapping_add(1);
        self.flushed = true;
        Ok(())
    }
}

impl RowSink for Room<'_> {
    ghost view = { λ s. record {
      text = Some (take s.len s.bytes.now ++ option_to_list s.spilled);
      held = [];
      written = 0;
      failures = s.failures;
      writer = record { reference = 0; target = s.bytes.ghost_name; flushes = s.flushes };
    } };

    ghost row_bytes = { λ s. None };

    fn put_rows(&mut self, bytes: &[u8], count: u32) -> Result<(), Fault> {
        let mut copy = 0;
        while copy < count {
            match write_bytes(self, bytes) {
                Ok(()) => {}
                Err(WriteFault) => return Err(Fault::Write),
            }
            copy += 1;
        }
        Ok(())
    }
}
