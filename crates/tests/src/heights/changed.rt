//! `to_pbm` and `decode` report a second reading that differs from the first.

use pbm_core::trial::{Drip, Pieces};
use raster_core::{Window, window_bytes};
use std::alloc::Global;
use t85_core::{Fault, Header, decode, to_pbm};

/// The result and the number of bytes written if the second reading has other bytes.
fn converts(alloc: Global, first: &[u8], second: &[u8]) -> (Result<(), Fault>, usize) {
    let mut input = Pieces::new(first, 1, None);
    let mut again = Some(Pieces::new(second, 1, None));
    let mut held = [0; 64];
    let mut output = Drip::new(&mut held, 1, None, false);
    let answer = to_pbm(alloc, &mut input, &mut again, u32::MAX, &mut output);
    (answer, output.written().len())
}

/// A header of 1 by 5 with variable height, and a stream of fixed height.
const VARIABLE: [u8; 32] = [
    0, 0, 1, 0, 0, 0, 0, 1, 0, 0, 0, 5, 0, 0, 0, 128, 0, 0, 0, 32, 0xC0, 0xFF, 2, 0xFF, 5, 0, 0, 0,
    1, 0xFF, 2, 0,
];

const FIXED: [u8; 23] = [
    0, 0, 1, 0, 0, 0, 0, 1, 0, 0, 0, 1, 0, 0, 0, 128, 0, 0, 0, 0, 0xC0, 0xFF, 2,
];

#[test]
fn second_reading_has_another_header(rt: HostRuntime) {
    assert!(rt; converts(rt.alloc(), &VARIABLE, &FIXED) == (Err(Fault::Changed), 0));
}

/// The result of `decode` for these bytes at this height, and the number of bytes written.
fn decodes(alloc: Global, bytes: &[u8], height: u32) -> Result<(Result<(), Fault>, usize), Fault> {
    let mut input = Pieces::new(bytes, 1, None);
    let header = Header::read(&mut input)?;
    if height == 0 || height > header.yd {
        return Err(Fault::ZeroSize);
    }
    let mut rows = vec![in alloc; 0u8; window_bytes(header.xd)].map_err(|_| Fault::OutOfMemory)?;
    let mut window = Window::over(rows.as_mut_slice(), header.xd);
    let mut held = [0; 64];
    let mut output = Drip::new(&mut held, 1, None, false);
    let answer = decode(&header, height, &mut window, &mut input, &mut output);
    Ok((answer, output.written().len()))
}

/// A new height of 3 before the first stripe, decoded at 5 rows.
const OTHER: [u8; 26] = [
    0, 0, 1, 0, 0, 0, 0, 1, 0, 0, 0, 5, 0, 0, 0, 128, 0, 0, 0, 32, 0xFF, 5, 0, 0, 0, 3,
];

#[test]
fn second_reading_has_another_height(rt: HostRuntime) {
    assert!(rt; decodes(rt.alloc(), &OTHER, 5) == Ok((Err(Fault::Changed), 7)));
}
