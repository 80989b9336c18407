//! The library reports the numbers of headers and streams, its version, and the size of a window.

use crate::tests::{LATE, TWICE, TWO_STRIPES};
use crate::{
    T85Facts, T85Header, T85Summary, t85_header, t85_info, t85_stream_facts, t85_version,
    t85_window_bytes,
};

#[test]
fn headers_are_told(rt: HostRuntime) {
    let mut told = T85Header {
        width: 9,
        height: 9,
        stripe_rows: 9,
        most_offset: 9,
        options: 9,
    };
    assert!(rt; t85_header(&LATE[..19], &mut told) == 1);
    assert!(rt; told.width == 9 && told.options == 9);
    assert!(rt; t85_header(&LATE[..20], &mut told) == 0);
    assert!(rt; told.width == 1 && told.height == 9 && told.stripe_rows == 1);
    assert!(rt; told.most_offset == 0 && told.options == 32);
}

#[test]
fn numbers_are_told(rt: HostRuntime) {
    let mut told = T85Summary {
        width: 9,
        height: 0,
        stripe_rows: 0,
        most_offset: 0,
        options: 0,
        image_height: 0,
        entities: 0,
        moves: 0,
        comments: 0,
    };
    assert!(rt; t85_info(&TWO_STRIPES[..20], &mut told) == 9);
    assert!(rt; told.width == 9);
    assert!(rt; t85_info(LATE, &mut told) == 0);
    assert!(rt; told.width == 1 && told.height == 9 && told.stripe_rows == 1);
    assert!(rt; told.most_offset == 0 && told.options == 32 && told.image_height == 2);
    assert!(rt; told.entities == 2 && told.moves == 0 && told.comments == 0);
}

/// The result for a stream with this version of the struct: the status, the stream's length, and its height.
fn facts(stream: &[u8], version: u32) -> (u8, usize, u32) {
    let mut told = T85Facts {
        version,
        width: 0,
        height: 0,
        stripe_rows: 0,
        most_offset: 0,
        options: 0,
        image_height: 0,
        entities: 0,
        moves: 0,
        comments: 0,
        stream_len: 0,
    };
    let status = t85_stream_facts(stream, &mut told);
    (status, told.stream_len, told.image_height)
}

#[test]
fn length_of_a_stream_is_told(rt: HostRuntime) {
    assert!(rt; facts(TWO_STRIPES, 1) == (0, 26, 2));
    assert!(rt; facts(LATE, 1) == (0, 32, 2));
    assert!(rt; facts(TWICE, 1) == (15, 0, 0));
    assert!(rt; facts(LATE, 2) == (50, 0, 0));
}

#[test]
fn numbers_of_the_library(rt: HostRuntime) {
    assert!(rt; t85_version() == 0x01_00_00);
    assert!(rt; t85_window_bytes(1) == 3);
    assert!(rt; t85_window_bytes(9) == 6);
    assert!(rt; t85_window_bytes(u32::MAX) == 0x6000_0000);
}
