//! Encodes rows into a buffer of fixed size.

ghost use Rattle.std.specs.Prelude.{◌≡◌, ◌≤◌, ◌<◌, ◌+◌, Some, false, length, take, true};
ghost use Rattle.pbm_core.specs.Pbm.{bytes_of_row};
ghost use Rattle.raster_core.specs.Window.{held, width_of};
ghost use Rattle.t85_core.specs.States.ByRow.{MayGoOn, TakesNextRow, lent_to};
ghost use Rattle.t85_core.specs.MostBytes.{most_row_bytes};
ghost use Rattle.t85_core.specs.States.RowSteps.{IsGoing, given_row};

use pbm_core::{DeviceFailed, Output};
use raster_core::Window;
use t85_core::{Learning, RowEncoder};

const SIZE: usize = 8192;

/// A buffer of fixed size. A write fails if and only if the buffer is full.
#[derive(Drop)]
pub struct Room {
    bytes: [u8; SIZE],
    len: usize,
    flushed: bool,
    /// The number of flushes, modulo 2^64.
    flushes: u64,
    /// The number of failed writes, modulo 2^64.
    failures: u64,
    ghost sized: { length bytes ≡ 8192 },
    ghost within: { len ≤ 8192 },
    ghost full: { 0 < failures → len ≡ 8192 },
}

impl Room {
    pub fn new() -> Room
        ensures empty { result.len ≡ 0 }
        ensures unfailed { result.failures ≡ 0 }
    {
        Room {
            bytes: [0; SIZE],
            len: 0,
            flushed: false,
            flushes: 0,
            failures: 0,
        }
    }

    /// The number of free bytes.
    pub fn left(&self) -> usize
        ensures { result + self.now.len ≡ 8192 }
    {
        SIZE - self.len
    }
}

impl Output for Room {
    ghost view = { λ s. record {
      contents = Some (take s.len s.bytes);
      flushed = s.flushed;
      target = 0;
      flushes = s.flushes;
      failures = s.failures;
    } };

    fn failures(&self) -> u64 {
        self.failures
    }

    fn write(&mut self, buf: &[u8]) -> Result<usize, DeviceFailed> {
        let count = buf.len().min(SIZE - self.len);
        if count == 0 && !buf.is_empty() {
            self.failures = self.failures.wrapping_add(1);
            return Err(DeviceFailed);
        }
        let end = self.len + count;
        self.bytes[self.len..end].copy_from_slice(&buf[..count]);
        self.len = end;
        self.flushed = false;
        Ok(count)
    }

    fn flush(&mut self) -> Result<(), DeviceFailed> {
        self.flushes = self.flushes.wrapping_add(1);
        self.flushed = true;
        Ok(())
    }
}

/// Encodes a row if the buffer has room for all bytes that it may write, and returns whether it did. So no write ever
/// fails.
pub fn put_where_room(
    encoder: &mut RowEncoder,
    row: &[u8],
    window: &mut Window<'_>,
    learning: &mut Learning,
    room: &mut Room,
) -> bool
    requires width { width_of window.old ≡ encoder.old.size.width }
    requires whole { length row.now ≡ bytes_of_row encoder.old.size.width }
    requires left { encoder.old.rows < encoder.old.size.height }
    requires ready { MayGoOn encoder.old }
    requires going { IsGoing encoder.old }
    requires unfailed { room.old.failures ≡ 0 }
    ensures put { result ≡ true → TakesNextRow (given_row encoder.old row.now)
        (lent_to encoder.old learning.old (held window.old)
        (Some (take room.old.len room.old.bytes)))
        (lent_to encoder.new learning.new (held window.new)
        (Some (take room.new.len room.new.bytes))) }
    ensures kept { result ≡ false → (encoder.new ≡ encoder.old) × (learning.new ≡ learning.old) ×
        (room.new ≡ room.old) }
    ensures unfailed { room.new.failures ≡ 0 }
    ensures wherever { most_row_bytes encoder.old + room.old.len < 8192 → result ≡ true }
{
    let left = room.left() as u64;
    if encoder.most_row_bytes() >= left {
        return false;
    }
    encoder.put_row(row, window, learning, room).is_ok()
}
