//! An input that reads ahead of another input.

ghost use Rattle.std.specs.Prelude.{None, ◌≡◌, ◌≤◌, ◌<◌, ◌+◌, ◌-◌, ◌^◌, ◌++◌, ℕ, List, true, false, length, take, drop, IfOk, IfErr, MatchResult};
ghost use Rattle.std.specs.Io.KnownBytes.{Consumes, IsAtEnd, Keeps};
ghost use Rattle.devices.specs.Device.{AreHeld, Counts, PassesHeld};

use crate::device::{DeviceFailed, Input};

const SIZE: usize = 4096;

/// A device with a buffer of 4,096 bytes in front of it. The device is read only by `fill`, and by a `read` while no
/// byte is buffered.
#[derive(Drop)]
pub struct Buffered<'a, R: Input> {
    input: &'a mut R,
    bytes: [u8; SIZE],
    at: usize,
    end: usize,
    ghost ordered: { at ≤ end },
    ghost within: { end ≤ 4096 },
    ghost fits: { (end - at) + (R.view input.now).left < 2 ^ 64 },
}

impl<'a, R: Input> Buffered<'a, R> {
    ghost use Rattle.devices.specs.Buffered.{ReadsBehind, GivesHeld, buffered_view, view_behind};

    pub fn new(input: &'a mut R) -> Buffered<'a, R>
        ensures empty { result.at ≡ result.end }
        ensures lent { result.input ≡ input.entry }
    {
        // The proof uses this call to bound the number of remaining bytes.
        let _ = input.left();
        Buffered {
            input,
            bytes: [0; SIZE],
            at: 0,
            end: 0,
        }
    }

    /// Consumes the next byte if it is buffered.
    #[inline(always)]
    pub fn next_held(&mut self) -> Option<u8>
        ensures given { GivesHeld (buffered_view self.old) (buffered_view self.new) result }
        ensures none { result ≡ None → self.new ≡ self.old }
        ensures behind { view_behind self.new ≡ view_behind self.old }
    {
        if self.at >= self.end {
            return None;
        }
        let byte = self.bytes[self.at];
        self.at += 1;
        Some(byte)
    }

    /// Moves the buffered bytes to the front of the buffer, reads behind them once, and returns how many came. For a
    /// buffer that is not full, 0 means the end. A read that failed has consumed nothing.
    pub fn fill(&mut self) -> Result<usize, DeviceFailed>
        ensures { ReadsBehind 4096 (buffered_view self.old) (buffered_view self.new) result }
    {
        let held = self.end - self.at;
        let bytes = &mut self.bytes[..];
        to_front(bytes, self.at, self.end);
        match read_behind(self.input, bytes, held) {
            Ok(count) => {
                self.at = 0;
                self.end = held + count;
                Ok(count)
            }
            Err(DeviceFailed) => {
                self.at = 0;
                self.end = held;
                Err(DeviceFailed)
            }
        }
    }
}

impl<R: Input> Input for Buffered<'_, R> {
    ghost use Rattle.devices.specs.Buffered.{buffered_view, view_behind};

    ghost view = { buffered_view };

    fn failures(&self) -> u64 {
        self.input.failures()
    }

    fn left(&self) -> u64 {
        (self.end - self.at) as u64 + self.input.left()
    }

    fn read(&mut self, buf: &mut [u8]) -> Result<usize, DeviceFailed> {
        if buf.is_empty() {
            return Ok(0);
        }
        if self.at == self.end {
            match self.fill() {
                Ok(_) => {}
                Err(DeviceFailed) => return Err(DeviceFailed),
            }
        }
        let count = buf.len().min(self.end - self.at);
        let end = self.at + count;
        buf[..count].copy_from_slice(&self.bytes[self.at..end]);
        self.at = end;
        Ok(count)
    }

    #[inline(always)]
    fn held(&self) -> &[u8]
        ensures all { result.now ≡ (buffered_view self.now).held }
        ensures first { AreHeld (buffered_view self.now) result.now }
    {
        &self.bytes[self.at..self.end]
    }

    #[inline(always)]
    fn pass(&mut self, count: usize) -> bool
        ensures passed { result ≡ true → PassesHeld count (buffered_view self.old)
            (buffered_view self.new) }
        ensures kept { result ≡ false → buffered_view self.new ≡ buffered_view self.old }
        ensures rest { result ≡ true → (buffered_view self.new).held ≡ drop count
            (buffered_view self.old).held }
        ensures enough { count ≤ length (buffered_view self.old).held → result ≡ true }
        ensures behind { view_behind self.new ≡ view_behind self.old }
    {
        if count > self.end - self.at {
            return false;
        }
        self.at += count;
        true
    }
}

/// Moves the bytes from position `at` up to `end` to the front.
fn to_front(bytes: &mut [u8], at: usize, end: usize)
    requires ordered { at ≤ end }
    requires within { end ≤ length bytes.old }
    ensures long { length bytes.new ≡ length bytes.old }
    ensures front { take (end - at) bytes.new ≡ take (end - at) (drop at bytes.old) }
{
    bytes.copy_within(at..end, 0);
}

/// Reads into the part of `bytes` after the first `held` bytes.
fn read_behind<R: Input>(
    input: &mut R,
    bytes: &mut [u8],
    held: usize,
) -> Result<usize, DeviceFailed>
    requires within { held ≤ length bytes.old }
    ensures long { length bytes.new ≡ length bytes.old }
    ensures within { IfOk result (λ n. held + n ≤ length bytes.new) }
    ensures ok { IfOk result (λ n. (more : List ℕ) × (take (held + n) bytes.new ≡
        take held bytes.old ++ more) × Consumes (R.view input.old).remaining
        (R.view input.new).remaining more) }
    ensures end { IfOk result (λ n. n ≡ 0 → held < length bytes.old →
        IsAtEnd (R.view input.new).remaining) }
    ensures err { IfErr result (λ _. Keeps (R.view input.old).remaining
        (R.view input.new).remaining × (take held bytes.new ≡ take held bytes.old)) }
    ensures left { MatchResult result (λ n. (R.view input.new).left + n ≡ (R.view input.old).left)
        (λ _. (R.view input.new).left ≡ (R.view input.old).left) }
    ensures counts { Counts (R.view input.old).failures (R.view input.new).failures result }
{
    input.read(&mut bytes[held..])
}
