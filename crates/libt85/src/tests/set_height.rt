//! Tests of writing the actual height into a header.

use crate::t85_set_height;
use crate::tests::decode;

/// Whether a stream gets this status, and these bytes.
fn is_settled<const N: usize>(stream: &[u8; N], status: u8, wanted: &[u8; N]) -> bool {
    let mut bytes = *stream;
    t85_set_height(&mut bytes) == status && &bytes == wanted
}

#[test]
fn late_heights_are_written(rt: HostRuntime) {
    // Between two stripes, and behind the last one of the header's height.
    assert!(rt;
        is_settled(
            b"\0\0\x01\0\0\0\0\x01\0\0\0\x09\0\0\0\x01\0\0\0\x20\xc0\xff\x02\xff\x05\0\0\0\x02\xc0\xff\x02",
            0,
            b"\0\0\x01\0\0\0\0\x01\0\0\0\x02\0\0\0\x01\0\0\0\x20\xc0\xff\x02\xff\x05\0\0\0\x02\xc0\xff\x02",
        )
    );
    assert!(rt;
        is_settled(
            b"\0\0\x01\0\0\0\0\x01\0\x01\x01\x01\0\x01\x01\x01\0\0\0\x20\xc0\xff\x02\xff\x05\0\0\x01\0\xff\x02",
            0,
            b"\0\0\x01\0\0\0\0\x01\0\0\x01\0\0\x01\x01\x01\0\0\0\x20\xc0\xff\x02\xff\x05\0\0\x01\0\xff\x02",
        )
    );
}

#[test]
fn other_heights_stay(rt: HostRuntime) {
    // No height follows; a height without VLENGTH; a height above the header's; one that has not arrived.
    assert!(rt;
        is_settled(
            b"\0\0\x01\0\0\0\0\x01\0\0\0\x01\0\0\0\x01\0\0\0\x20\xc0\xff\x02",
            0,
            b"\0\0\x01\0\0\0\0\x01\0\0\0\x01\0\0\0\x01\0\0\0\x20\xc0\xff\x02",
        )
    );
    assert!(rt;
        is_settled(
            b"\0\0\x01\0\0\0\0\x01\0\0\0\x09\0\0\0\x01\0\0\0\0\xc0\xff\x02\xff\x05\0\0\0\x02\xc0\xff\x02",
            0,
            b"\0\0\x01\0\0\0\0\x01\0\0\0\x09\0\0\0\x01\0\0\0\0\xc0\xff\x02\xff\x05\0\0\0\x02\xc0\xff\x02",
        )
    );
    assert!(rt;
        is_settled(
            b"\0\0\x01\0\0\0\0\x01\0\0\0\x09\0\0\0\x01\0\0\0\x20\xc0\xff\x02\xff\x05\0\0\0\x0a\xc0\xff\x02",
            0,
            b"\0\0\x01\0\0\0\0\x01\0\0\0\x09\0\0\0\x01\0\0\0\x20\xc0\xff\x02\xff\x05\0\0\0\x0a\xc0\xff\x02",
        )
    );
    assert!(rt;
        is_settled(
            b"\0\0\x01\0\0\0\0\x01\0\0\0\x09\0\0\0\x01\0\0\0\x20\xc0\xff\x02\xff\x05\0\0\0",
            0,
            b"\0\0\x01\0\0\0\0\x01\0\0\0\x09\0\0\0\x01\0\0\0\x20\xc0\xff\x02\xff\x05\0\0\0",
        )
    );
}

#[test]
fn headers_that_are_rejected_stay(rt: HostRuntime) {
    assert!(rt;
        is_settled(
            b"\0\0\x01\0\0\0\0\x01\0\0\0\x09\0\0\0\x01\0\0\0",
            1,
            b"\0\0\x01\0\0\0\0\x01\0\0\0\x09\0\0\0\x01\0\0\0",
        )
    );
    assert!(rt;
        is_settled(
            b"\0\0\x02\0\0\0\0\x01\0\0\0\x09\0\0\0\x01\0\0\0\x20\xc0\xff\x02\xff\x05\0\0\0\x02\xc0\xff\x02",
            4,
            b"\0\0\x02\0\0\0\0\x01\0\0\0\x09\0\0\0\x01\0\0\0\x20\xc0\xff\x02\xff\x05\0\0\0\x02\xc0\xff\x02",
        )
    );
}

#[test]
fn streams_with_their_height_are_decoded(rt: HostRuntime) {
    let mut stream =
        *b"\0\0\x01\0\0\0\0\x01\0\0\0\x09\0\0\0\x01\0\0\0\x20\xc0\xff\x02\xff\x05\0\0\0\x02\xc0\xff\x02";
    let mut image = [0xaa; 24];
    assert!(rt; t85_set_height(&mut stream) == 0);
    assert!(rt; decode(&stream, 2, 24, &mut image) == (0, 9));
    assert!(rt; &image[..9] == b"P4\n1 2\n\x80\x80".as_slice());
}
