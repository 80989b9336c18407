//! Each finished stripe is written before a slow input continues: the input observes how much the output has received.

ghost use Rattle.std.specs.Prelude.{◌<◌, ◌-◌, [], length, None};

use crate::trial::Bytes::Image;
use crate::trial::{Bytes, Program};
use pbm_core::trial::{Drip, Pieces};
use pbm_core::{DeviceFailed, Input, Output};
use program_core::LineFault;
use std::alloc::Global;
use std::cell::Cell;
use std::test::Fail;

/// The greatest number of bytes of a watched image.
const MOST: usize = 16;

/// An input that returns single bytes, and records for each how many the output has received before it.
#[derive(Drop)]
struct Watcher<'a> {
    rest: &'a [u8],
    came: usize,
    taken: &'a Cell<u64>,
    seen: [u64; MOST],
}

impl Input for Watcher<'_> {
    ghost view = { λ s. record {
      remaining = None;
      held = [];
      left = length s.rest.now;
      failures = 0;
      source = 0;
    } };

    fn failures(&self) -> u64 {
        0
    }

    fn left(&self) -> u64 {
        self.rest.len() as u64
    }

    fn read(&mut self, buf: &mut [u8]) -> Result<usize, DeviceFailed> {
        if let (Some(place), Some((byte, rest))) = (buf.first_mut(), self.rest.split_first()) {
            if self.came < MOST {
                self.seen[self.came] = self.taken.get();
                self.came += 1;
            }
            *place = *byte;
            self.rest = rest;
            Ok(1)
        } else {
            Ok(0)
        }
    }
}

/// An output that stores nothing, and publishes the number of bytes that it received.
#[derive(Drop)]
struct Counter<'a> {
    taken: &'a Cell<u64>,
    flushed: bool,
    flushes: u64,
}

impl Output for Counter<'_> {
    ghost view = { λ s. record {
      contents = None;
      flushed = s.flushed;
      target = 0;
      flushes = s.flushes;
      failures = 0;
    } };

    fn failures(&self) -> u64 {
        0
    }

    fn write(&mut self, buf: &[u8]) -> Result<usize, DeviceFailed> {
        let taken = self.taken.get();
        self.taken.set(taken.saturating_add(buf.len() as u64));
        self.flushed = false;
        Ok(buf.len())
    }

    fn flush(&mut self) -> Result<(), DeviceFailed> {
        self.flushes = self.flushes.wrapping_add(1);
        self.flushed = true;
        Ok(())
    }
}

/// A run of the encoder, and the output that is due while its rows are read.
struct Watched {
    words: &'static [&'static str],
    image: Bytes<'static>,
    /// Bytes of the image, and how many of the stream must have been written before each.
    due: &'static [(usize, u64)],
    /// The length of the stream.
    whole: u64,
}

static WATCHED: [Watched; 6] = [
    // A header, and F0 FF 02 and F4 FF 02.
    Watched {
        words: &["pbmtojbg85", "-p", "0", "-s", "1"],
        image: Image("8 2", "FF FF"),
        due: &[(8, 23)],
        whole: 26,
    },
    // A header, and F0 FF 03 for each row.
    Watched {
        words: &["pbmtojbg85", "-p", "0", "-s", "1", "-r"],
        image: Image("8 3", "FF FF FF"),
        due: &[(8, 23), (9, 26)],
        whole: 29,
    },
    // A header, a comment of eight bytes, and F0 FF 02 and F4 FF 02.
    Watched {
        words: &["pbmtojbg85", "-p", "0", "-s", "1", "-C", "hi"],
        image: Image("8 2", "FF FF"),
        due: &[(8, 31)],
        whole: 34,
    },
    // A header, F0 FF 02, and after a move of eight bytes F8 FF 02.
    Watched {
        words: &["pbmtojbg85", "-p", "0", "-s", "1", "-m", "3"],
        image: Image("8 2", "FF FF"),
        due: &[(8, 23)],
        whole: 34,
    },
    // A header, and FF 03 for three white rows and for three more.
    Watched {
        words: &["pbmtojbg85", "-s", "3", "-r"],
        image: Image("8 6", "00 00 00 00 00 00"),
        due: &[(10, 22)],
        whole: 24,
    },
    // A header, and E0 FF 02 for each row.
    Watched {
        words: &["pbmtojbg85", "-s", "1"],
        image: Image("1 2", "80 80"),
        due: &[(8, 23)],
        whole: 26,
    },
];

impl Watched {
    /// Whether at least this many bytes had been written before each of these bytes of the image was read.
    fn were_out(&self, seen: &[u64; MOST]) -> bool {
        self.due.iter().all(|&(at, count)| seen.get(at).is_some_and(|taken| *taken >= count))
    }

    /// Whether the encoder succeeds, with everything written, and each stripe in time.
    fn goes_out(&self, alloc: Global) -> Result<bool, LineFault> {
        let image = self.image.to_vec(alloc)?;
        let program = Program::of(alloc, self.words)?;
        let (status, taken, seen) = watch(alloc, &program, &image);
        Ok(status == 0 && taken == self.whole && self.were_out(&seen))
    }
}

/// Runs the program on these bytes: the exit status, the number of bytes written, and the number written before each
/// byte that it read.
fn watch(alloc: Global, program: &Program, bytes: &[u8]) -> (u8, u64, [u64; MOST]) {
    let taken = Cell::new(0);
    let input = Watcher {
        rest: bytes,
        came: 0,
        taken: &taken,
        seen: [0; MOST],
    };
    let output = Counter {
        taken: &taken,
        flushed: false,
        flushes: 0,
    };
    let mut told = [0; 128];
    let mut messages = Drip::new(&mut told, 128, None, false);
    let again = None::<Pieces<'_>>;
    let (status, input, _, _) = program.run(alloc, input, again, output, &mut messages);
    (status, taken.get(), input.seen)
}

/// Before the first row of a stripe is read, the previous stripe is written, with its end marker.
#[test]
fn sends_each_stripe_on(rt: HostRuntime) -> Result<(), Fail> {
    for watched in &WATCHED {
        assert!(rt; watched.goes_out(rt.alloc())?, "{:?}", watched.words);
    }
    Ok(())
}
