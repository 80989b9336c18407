//! Decodes the stream on standard input repeatedly, whole or in pieces, to measure the cost of pieces.
//!
//! The arguments are the number of repetitions, and the bytes per piece: 0 passes the whole stream to `decode`. Prints
//! the number of bytes of all images.
#![tactic(auto)]

ghost use Rattle.std.specs.Prelude.{◌≡◌};
ghost use Rattle.raster_core.specs.Window.{width_of};

use devices::ToWrite;
use devices::trial::Pieces;
use qm_core::Learned;
use raster_core::{Window, window_bytes};
use std::alloc::Global;
use std::io::{self, Read};
use t85_core::{Header, More, Outcome, PieceDecoder, decode};

/// Decodes a body in pieces of this many bytes, each preceded by the bytes that the previous call left.
fn in_pieces(header: Header, body: &[u8], window: &mut Window<'_>, size: usize, rows: &mut Vec<u8>)
    requires { width_of window.old ≡ header.xd }
{
    let mut learned = Learned::new();
    let mut decoder = PieceDecoder::start(header, window, &mut learned);
    let mut from = 0usize;
    let mut to = 0usize;
    'calls: for _ in 0..u64::MAX {
        let progress = decoder.next(window, &mut learned, &body[from..to], More::Comes);
        from += progress.taken;
        match progress.outcome {
            Outcome::Row => {
                if rows.extend_from_slice(window.row(0)).is_err() {
                    return;
                }
            }
            Outcome::More => {
                if to == body.len() {
                    return;
                }
                to += size.min(body.len() - to);
            }
            Outcome::Done(_) | Outcome::Broken(_) => return,
        }
    }
}

/// Decodes a body in one call, which writes a PBM.
fn whole(header: &Header, body: &[u8], window: &mut Window<'_>, rows: &mut Vec<u8>)
    requires { width_of window.old ≡ header.now.xd }
{
    let mut input = Pieces::new(body, 1 << 20, None);
    let mut output = ToWrite::new(rows);
    decode(header, header.yd, window, &mut input, &mut output).ok();
}

/// The argument with this index as a number.
fn number(words: &[String], i: usize, otherwise: u32) -> u32 {
    match words.get(i) {
        Some(word) => word.as_str().parse().unwrap_or(otherwise),
        None => otherwise,
    }
}

/// Decodes a stream this many times, and counts the bytes of its images.
fn run(alloc: Global, bytes: &[u8], times: u32, size: u32) -> io::Result<u64> {
    let mut sum = 0u64;
    let mut input = Pieces::new(bytes, 1 << 20, None);
    let Ok(header) = Header::read(&mut input) else {
        return Ok(0);
    };
    let body = input.rest;
    for _ in 0..times {
        let mut lent = Vec::from_elem(alloc, 0u8, window_bytes(header.xd))?;
        let mut window = Window::over(lent.as_mut_slice(), header.xd);
        let mut rows = Vec::new(alloc);
        if size == 0 {
            whole(&header, body, &mut window, &mut rows);
        } else {
            in_pieces(header, body, &mut window, size as usize, &mut rows);
        }
        sum = sum.wrapping_add(rows.len() as u64);
    }
    Ok(sum)
}

fn main(rt: HostRuntime) -> io::Result<()> {
    let alloc = rt.alloc();
    let words: Vec<String> = std::env::args(&rt)?.collect(alloc)?;
    let times = number(words.as_slice(), 1, 1);
    let size = number(words.as_slice(), 2, 0);
    let mut all = Vec::new(alloc);
    rt.stdin().read_to_end(&mut all)?;
    let sum = run(alloc, all.as_slice(), times, size)?;
    println!(rt; "{sum}")?;
    Ok(())
}
