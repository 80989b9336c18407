//! Runs, of which a decoder decodes as many pixels as the bytes read determine.

use crate::pulls::{Counted, events_of, is_next, rows_of_kind, run_at, whole};
use crate::rows::{Given, shape};
use qm_core::{Context, Decoder, Learned};
use raster_core::Shape;
use std::alloc::{AllocError, Global};
use std::process::Abort;
use std::test::Fail;

/// The number of events of a run from here on that need no more bytes than were requested, of a code that has `all`.
fn determined_at(events: &[Counted], at: usize, run: u32, all: u64, asked: u64) -> u32 {
    let mut count = 0u32;
    for k in 0..run {
        match events.get(at.saturating_add(k as usize)) {
            Some(event) if event.wanted.min(all) <= asked => count = k.saturating_add(1),
            _ => break,
        }
    }
    count
}

/// Decodes events, those of a run as far as the bytes read determine them, and compares their number with that by the
/// definition. Behind the end of the code, zeros may have to be substituted first. Returns how many were decoded so.
fn runs_of(rt: &impl Abort, events: &[Counted], code: &[u8]) -> u64 {
    let all = whole(code);
    let mut source = Given::new(code, true);
    let mut decoder = Decoder::start();
    let mut learned = Learned::new();
    let mut passed = 0usize;
    let mut many = 0u64;
    for i in 0..events.len() {
        if i >= passed {
            let event = &events[i];
            let run = run_at(events, i);
            let asked = source.asked;
            let wanted = determined_at(events, i, run, all, asked);
            let cx = Context::of(event.context % 1024);
            assert!(rt; decoder.next_run(&mut learned, cx, !event.black, run) == 0);
            let count = decoder.next_run(&mut learned, cx, event.black, run);
            assert!(rt;
                count == wanted || count < wanted && asked == all,
                "event {i}"
            );
            if count == 0 {
                assert!(rt; is_next(rt, &mut decoder, &mut learned, event, &mut source));
            }
            passed = i.saturating_add(count.max(1) as usize);
            many = many.saturating_add(u64::from(count));
        }
    }
    many
}

/// The runs of an image of some kind.
fn runs_of_kind(
    rt: &impl Abort,
    alloc: Global,
    shape: Shape,
    offset: u8,
    kind: u32,
) -> Result<u64, AllocError> {
    let rows = rows_of_kind(alloc, shape.width, 36, kind)?;
    let (events, code) = events_of(rt, alloc, shape, offset, rows.as_slice())?;
    Ok(runs_of(rt, events.as_slice(), code.as_slice()))
}

/// Each pixel that the bytes read determine is decoded, and no other.
#[test]
fn runs_are_those_determined(rt: HostRuntime) -> Result<(), Fail> {
    for kind in 0..5u32 {
        for &(width, two_line, offset) in &[(203, false, 0u8), (96, true, 40)] {
            let many = runs_of_kind(&rt, rt.alloc(), shape(width, two_line, false), offset, kind)?;
            assert!(rt; many > 100, "{kind}: {many}");
        }
    }
    Ok(())
}
