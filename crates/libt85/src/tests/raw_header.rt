//! Tests of the fields of a header as they are in its bytes.

use crate::{T85RawHeader, t85_raw_header};

/// Twenty different bytes, and one that is not part of the header.
const COUNTED: &[u8] =
    b"\x01\x02\x03\x04\x05\x06\x07\x08\x09\x0a\x0b\x0c\x0d\x0e\x0f\x10\x11\x12\x13\x14\x15";

/// Fields that no call has set.
const UNSET: T85RawHeader = T85RawHeader {
    width: 77,
    height: 0,
    stripe_rows: 0,
    first_layer: 0,
    last_layer: 0,
    planes: 0,
    fill: 0,
    most_offset: 0,
    most_vertical_offset: 0,
    order: 0,
    options: 78,
};

#[test]
fn raw_fields_are_those_of_the_bytes(rt: HostRuntime) {
    let mut told = UNSET;
    assert!(rt; t85_raw_header(COUNTED, &mut told) == 0);
    assert!(rt; told.first_layer == 1 && told.last_layer == 2);
    assert!(rt; told.planes == 3 && told.fill == 4);
    assert!(rt; told.width == 0x05_06_07_08 && told.height == 0x09_0a_0b_0c);
    assert!(rt; told.stripe_rows == 0x0d_0e_0f_10);
    assert!(rt; told.most_offset == 0x11 && told.most_vertical_offset == 0x12);
    assert!(rt; told.order == 0x13 && told.options == 0x14);
}

#[test]
fn raw_fields_need_twenty_bytes(rt: HostRuntime) {
    let mut told = UNSET;
    assert!(rt; t85_raw_header(&COUNTED[..19], &mut told) == 1);
    assert!(rt; told.width == 77 && told.options == 78);
    assert!(rt; t85_raw_header(b"", &mut told) == 1);
    assert!(rt; t85_raw_header(&COUNTED[..20], &mut told) == 0);
    assert!(rt; told.first_layer == 1 && told.options == 0x14);
}
