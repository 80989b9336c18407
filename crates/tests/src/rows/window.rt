//! A window turns its rows, and clears them.

use crate::rows::{is_row, write_row};
use raster_core::{Window, window_bytes};
use std::process::Abort;

/// Whether a window has these rows, the current one first.
fn has_rows(window: &Window, rows: [[u8; 2]; 3]) -> bool {
    let [current, above, second] = rows;
    is_row(window, 0, &current) && is_row(window, 1, &above) && is_row(window, 2, &second)
}

/// Writes four rows, each below the one before.
fn write_turning(rt: &impl Abort, window: &mut Window) {
    for byte in 1..5u8 {
        window.turn();
        write_row(rt, window, &[byte, 0]);
    }
}

#[test]
fn turns_and_clears(rt: HostRuntime) {
    assert!(rt; (window_bytes(9), window_bytes(1_048_576)) == (6, 393_216));
    let mut bytes = [0xaa; 6];
    let mut window = Window::over(&mut bytes, 9);
    assert!(rt; window.width() == 9);
    assert!(rt; has_rows(&window, [[0, 0]; 3]));
    write_turning(&rt, &mut window);
    assert!(rt; has_rows(&window, [[4, 0], [3, 0], [2, 0]]));
    window.clear();
    assert!(rt; has_rows(&window, [[0, 0]; 3]));
}
