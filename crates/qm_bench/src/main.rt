//! Encodes and decodes pixels in pseudo-random contexts, to time the coder.
//!
//! The arguments are the number of pixels and a mode: 0 only generates them, 1 also encodes them, and any other number,
//! or none, also decodes them.
#![tactic(auto)]

ghost use Rattle.std.specs.Prelude.{◌≡◌, ◌+◌, ◌<◌};

use qm_core::{CodeBytes, CodeSink, Context, Decoder, Encoder, Learned, Pulled, SinkFault};
use std::alloc::Global;
use std::io;

/// A linear congruential generator. In context k, black has probability 2^(k mod 8) / 256.
#[derive(Drop)]
struct Draws {
    seed: u32,
}

impl Draws {
    fn new() -> Draws {
        Draws { seed: 1 }
    }

    /// A context and its pixel.
    #[inline(always)]
    fn next_pixel(&mut self) -> (Context, bool) {
        self.seed = self
            .seed
            .wrapping_mul(1_664_525)
            .wrapping_add(1_013_904_223);
        let number = ((self.seed >> 20) % 1024) as u16;
        let pixel = (self.seed >> 8) % 256 < 1 << (number % 8);
        (Context::of(number), pixel)
    }
}

/// A sink that stores its bytes.
#[derive(Drop)]
struct MemorySink {
    bytes: Vec<u8>,
    failed: u64,
}

impl MemorySink {
    fn new(alloc: Global) -> MemorySink
        ensures { result.failed ≡ 0 }
    {
        MemorySink {
            bytes: Vec::new(alloc),
            failed: 0,
        }
    }

    fn bytes(&self) -> &[u8] {
        self.bytes.as_slice()
    }
}

impl CodeSink for MemorySink {
    ghost took = { λ _ _ _. Unit {0} };

    ghost refused = { λ _ _. Unit {0} };

    ghost failed = { λ s. s.failed };

    fn push(&mut self, byte: u8) -> Result<(), SinkFault> {
        if self.bytes.push(byte).is_err() {
            self.failed = self.failed.wrapping_add(1);
            return Err(SinkFault);
        }
        Ok(())
    }

    fn failures(&self) -> u64 {
        self.failed
    }
}

/// A source of a stuffed code without an end marker.
#[derive(Drop)]
struct MemorySource<'a> {
    bytes: &'a [u8],
}

impl<'a> MemorySource<'a> {
    fn new(bytes: &'a [u8]) -> MemorySource<'a> {
        MemorySource { bytes }
    }
}

impl CodeBytes for MemorySource<'_> {
    ghost gives = { λ _ _ _. Unit {0} };

    ghost failed = { λ _. 0 };

    ghost left = { λ _. 0 };

    fn pull(&mut self) -> Pulled {
        let Some((&byte, rest)) = self.bytes.split_first() else {
            return Pulled::End;
        };
        self.bytes = rest;
        if byte == 255 {
            let Some((_, behind)) = rest.split_first() else {
                return Pulled::End;
            };
            self.bytes = behind;
        }
        Pulled::Byte(byte)
    }

    fn failures(&self) -> u64 {
        0
    }
}

fn number(words: &[String], i: usize, otherwise: u32) -> u32 {
    match words.get(i) {
        Some(word) => word.as_str().parse().unwrap_or(otherwise),
        None => otherwise,
    }
}

/// Generates pixels, and adds them up.
fn draw(count: u32) -> u32 {
    let mut draws = Draws::new();
    let mut sum = 0u32;
    for _ in 0..count {
        let (cx, pixel) = draws.next_pixel();
        sum = sum.wrapping_add(u32::from(cx.number) * 2 + u32::from(pixel));
    }
    sum
}

/// Encodes pixels, and returns whether the sink accepted all bytes.
fn encode(count: u32, sink: &mut MemorySink) -> bool {
    let mut encoder = Encoder::start();
    let mut learned = Learned::new();
    let mut draws = Draws::new();
    for _ in 0..count {
        let (cx, pixel) = draws.next_pixel();
        if encoder.put(&mut learned, cx, pixel, sink).is_err() {
            return false;
        }
    }
    encoder.finish(sink).is_ok()
}

/// Decodes pixels, and counts those that differ from the generated ones.
fn decode(count: u32, source: &mut MemorySource) -> u32 {
    let mut decoder = Decoder::start();
    let mut learned = Learned::new();
    let mut draws = Draws::new();
    let mut wrong = 0u32;
    for _ in 0..count {
        let (cx, pixel) = draws.next_pixel();
        if decoder.next(&mut learned, cx, source) != Ok(pixel) {
            wrong = wrong.wrapping_add(1);
        }
    }
    wrong
}

fn main(rt: HostRuntime) -> io::Result<()> {
    let alloc = rt.alloc();
    let words: Vec<String> = std::env::args(&rt)?.collect(alloc)?;
    let count = number(words.as_slice(), 1, 100_000);
    let mode = number(words.as_slice(), 2, 2);
    if mode == 0 {
        let sum = draw(count);
        println!(rt; "drawn {sum}")?;
        return Ok(());
    }
    let mut sink = MemorySink::new(alloc);
    let all = encode(count, &mut sink);
    let bytes = sink.bytes();
    let length = bytes.len();
    let sum = bytes.iter().fold(
        0u32,
        |sum, byte| sum.wrapping_mul(31).wrapping_add(u32::from(*byte)),
    );
    println!(rt; "coded {length} bytes, sum {sum}, all {all}")?;
    if mode > 1 {
        let wrong = decode(count, &mut MemorySource::new(bytes));
        println!(rt; "decoded, {wrong} wrong")?;
    }
    Ok(())
}
