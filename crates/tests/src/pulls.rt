//! The number of times that a decoder asks its source, decision by decision, compared with a count by the definition
//! alone.

ghost use Rattle.std.specs.Prelude.{◌+◌, ◌<◌};

mod runs;

use crate::rows::model::{context_by_coordinates, pixel};
use crate::rows::{Course, Given, Taken, put, shape};
use qm_core::{CodeBytes, Context, Decoder, Encoder, Learned, Pulled};
use raster_core::{Shape, Window, window_bytes};
use std::alloc::{AllocError, Global};
use std::process::Abort;
use std::test::Fail;

/// The sizes of the less probable part, by the row of T.82's table.
static SIZES: [u32; 113] = [
    0x5A1D, 0x2586, 0x1114, 0x080B, 0x03D8, 0x01DA, 0x00E5, 0x006F, 0x0036, 0x001A, 0x000D, 0x0006,
    0x0003, 0x0001, 0x5A7F, 0x3F25, 0x2CF2, 0x207C, 0x17B9, 0x1182, 0x0CEF, 0x09A1, 0x072F, 0x055C,
    0x0406, 0x0303, 0x0240, 0x01B1, 0x0144, 0x00F5, 0x00B7, 0x008A, 0x0068, 0x004E, 0x003B, 0x002C,
    0x5AE1, 0x484C, 0x3A0D, 0x2EF1, 0x261F, 0x1F33, 0x19A8, 0x1518, 0x1177, 0x0E74, 0x0BFB, 0x09F8,
    0x0861, 0x0706, 0x05CD, 0x04DE, 0x040F, 0x0363, 0x02D4, 0x025C, 0x01F8, 0x01A4, 0x0160, 0x0125,
    0x00F6, 0x00CB, 0x00AB, 0x008F, 0x5B12, 0x4D04, 0x412C, 0x37D8, 0x2FE8, 0x293C, 0x2379, 0x1EDF,
    0x1AA9, 0x174E, 0x1424, 0x119C, 0x0F6B, 0x0D51, 0x0BB6, 0x0A40, 0x5832, 0x4D1C, 0x438E, 0x3BDD,
    0x34EE, 0x2EAE, 0x299A, 0x2516, 0x5570, 0x4CA9, 0x44D9, 0x3E22, 0x3824, 0x32B4, 0x2E17, 0x56A8,
    0x4F46, 0x47E5, 0x41CF, 0x3C3D, 0x375E, 0x5231, 0x4C0F, 0x4639, 0x415E, 0x5627, 0x50E7, 0x4B85,
    0x5597, 0x504F, 0x5A10, 0x5522, 0x59EB,
];

/// The size of a coding interval, and its number of doublings.
#[derive(Drop)]
struct Narrowing {
    size: u32,
    doublings: u64,
}

impl Narrowing {
    /// Takes the part of a pixel, doubled until it is large enough.
    fn go(&mut self, upper: u32, is_favoured: bool) {
        let lower = self.size.saturating_sub(upper);
        let is_lower = (lower < upper) != is_favoured;
        self.size = if is_lower { lower } else { upper };
        for _i in 0..16 {
            if self.size < 0x8000 {
                self.size = self.size.wrapping_mul(2);
                self.doublings = self.doublings.saturating_add(1);
            }
        }
    }

    /// The number of bytes that determine an event here: those of 16 bits, and one bit per doubling.
    fn wanted(&self) -> u64 {
        self.doublings.saturating_add(23) / 8
    }
}

/// A pixel in its context, and the number of bytes of a continuing code that determine it.
#[derive(Clone, Copy, Drop)]
struct Counted {
    context: u16,
    black: bool,
    wanted: u64,
}

/// Encodes a pixel, and counts the bytes that it needs.
fn put_counted(
    rt: &impl Abort,
    narrowing: &mut Narrowing,
    encoder: &mut Encoder,
    learned: &mut Learned,
    context: u16,
    black: bool,
    out: &mut Taken,
) -> Counted {
    let wanted = narrowing.wanted();
    let (row, favoured) = learned.state(Context::of(context % 1024));
    let size = SIZES.get(usize::from(row)).copied();
    assert!(rt; size.is_some());
    narrowing.go(size.unwrap_or(0), black == favoured);
    put(rt, encoder, learned, context, black, out);
    Counted {
        context,
        black,
        wanted,
    }
}

/// The events of rows in one stripe, and their code.
fn events_of(
    rt: &impl Abort,
    alloc: Global,
    shape: Shape,
    offset: u8,
    rows: &[Vec<u8>],
) -> Result<(Vec<Counted>, Vec<u8>), AllocError> {
    let mut out = Taken {
        bytes: Vec::new(alloc),
    };
    let mut events = Vec::new(alloc);
    let mut encoder = Encoder::start();
    let mut learned = Learned::new();
    let mut narrowing = Narrowing {
        size: 0x1_0000,
        doublings: 0,
    };
    let white: &[u8] = &[];
    let mut above = white;
    let mut second = white;
    for line in rows {
        let row = line.as_slice();
        for x in 0..shape.width {
            let context = context_by_coordinates(shape, offset, [row, above, second], x);
            let black = pixel(row, shape.width, x, 0, 0);
            events.push(put_counted(
                rt,
                &mut narrowing,
                &mut encoder,
                &mut learned,
                context,
                black,
                &mut out,
            ))?;
        }
        second = above;
        above = row;
    }
    assert!(rt; encoder.finish(&mut out) == Ok(()));
    Ok((events, out.bytes))
}

/// The number of times that a source is asked until it reports its end.
fn whole(code: &[u8]) -> u64 {
    let mut source = Given::new(code, true);
    for _i in 0..=code.len() {
        if source.failures() > 0 || source.pull() == Pulled::End {
            break;
        }
    }
    source.asked
}

/// The number of equal events in a row from here on, up to 64.
fn run_at(events: &[Counted], at: usize) -> u32 {
    let mut count = 0u32;
    let first = match events.get(at) {
        Some(first) => first,
        None => return 0,
    };
    for k in 0..64usize {
        match events.get(at.saturating_add(k)) {
            Some(event) if event.context == first.context && event.black == first.black => {
                count = count.saturating_add(1).min(64);
            }
            _ => break,
        }
    }
    count
}

/// Decodes the pixel of an event.
fn is_next(
    rt: &impl Abort,
    decoder: &mut Decoder,
    learned: &mut Learned,
    event: &Counted,
    source: &mut Given,
) -> bool {
    assert!(rt; source.failures() < 10);
    decoder.next(learned, Context::of(event.context % 1024), source) == Ok(event.black)
}

/// Decodes events, as many at once as possible, and compares the number of pulls after each. Returns how many were
/// decoded together with others.
fn pulls_of(rt: &impl Abort, events: &[Counted], code: &[u8]) -> u64 {
    let all = whole(code);
    let mut source = Given::new(code, true);
    let mut decoder = Decoder::start();
    let mut learned = Learned::new();
    let mut passed = 0usize;
    let mut many = 0u64;
    for i in 0..events.len() {
        let event = &events[i];
        if i >= passed {
            let before = source.asked;
            let count = run_at(events, i);
            let cx = Context::of(event.context % 1024);
            if count > 0 && count <= 64 && decoder.skip(&learned, cx, event.black, count) {
                passed = i.saturating_add(count as usize);
                many = many.saturating_add(u64::from(count));
                assert!(rt; source.asked == before);
            } else {
                assert!(rt; is_next(rt, &mut decoder, &mut learned, event, &mut source));
            }
        }
        assert!(rt; source.asked == event.wanted.min(all), "event {i}");
    }
    many
}

/// Decodes the rows of a code, and compares the number of pulls after each with that of its last event.
fn pulls_of_rows(
    rt: &impl Abort,
    alloc: Global,
    shape: Shape,
    offset: u8,
    events: &[Counted],
    code: &[u8],
) -> Result<(), AllocError> {
    let all = whole(code);
    let mut bytes = vec![in alloc; 0u8; window_bytes(shape.width)]?;
    let mut window = Window::over(bytes.as_mut_slice(), shape.width);
    let mut course = Course::new(shape, offset);
    let mut source = Given::new(code, true);
    let mut decoder = Decoder::start();
    for (i, event) in events.iter().enumerate() {
        if shape.width > 0 && (i as u64).wrapping_add(1) % u64::from(shape.width) == 0 {
            window.turn();
            let done = course.decode(rt, &mut window, &mut decoder, &mut source);
            assert!(rt; done == Ok(()));
            assert!(rt; source.asked == event.wanted.min(all), "event {i}");
        }
    }
    Ok(())
}

/// Whether a pixel is black, in an image of some kind: white or black with a few others, blocks, or half black at
/// random.
fn is_black(kind: u32, x: u32, y: u32, noise: u32) -> bool {
    match kind {
        0 => noise < 1,
        1 => noise >= 1,
        2 => (x / 90 + y / 9) % 2 == 0,
        3 => (x / 70 + y / 5) % 2 == 0 && noise >= 4,
        _ => noise < 128,
    }
}

/// The rows of an image of some kind. Each ends in white padding.
fn rows_of_kind(
    alloc: Global,
    width: u32,
    height: u32,
    kind: u32,
) -> Result<Vec<Vec<u8>>, AllocError> {
    let mut rows = Vec::new(alloc);
    let mut state = kind;
    for y in 0..height {
        let mut row = vec![in alloc; 0u8; width.div_ceil(8) as usize]?;
        for x in 0..width {
            state = state.wrapping_mul(1_664_525).wrapping_add(1_013_904_223);
            if is_black(kind, x, y, state >> 24) {
                if let Some(byte) = row.get_mut((x / 8) as usize) {
                    *byte |= 0x80u8 >> (x % 8);
                }
            }
        }
        rows.push(row)?;
    }
    Ok(rows)
}

/// The pulls for an image of some kind are those that its events need. Returns how many events were decoded together
/// with others.
fn wants_of(
    rt: &impl Abort,
    alloc: Global,
    shape: Shape,
    offset: u8,
    kind: u32,
) -> Result<u64, AllocError> {
    let rows = rows_of_kind(alloc, shape.width, 36, kind)?;
    let (events, code) = events_of(rt, alloc, shape, offset, rows.as_slice())?;
    pulls_of_rows(rt, alloc, shape, offset, events.as_slice(), code.as_slice())?;
    Ok(pulls_of(rt, events.as_slice(), code.as_slice()))
}

/// No pixel pulls a byte early, and none misses one that it needs, whether alone or in a run.
#[test]
fn pulls_are_those_wanted(rt: HostRuntime) -> Result<(), Fail> {
    for kind in 0..5u32 {
        for &(width, two_line, offset) in &[
            (203, false, 0u8),
            (203, true, 0),
            (200, false, 9),
            (96, true, 40),
        ] {
            let many = wants_of(&rt, rt.alloc(), shape(width, two_line, false), offset, kind)?;
            assert!(rt; kind == 4 || many > 1000, "{kind}: {many}");
        }
    }
    Ok(())
}
