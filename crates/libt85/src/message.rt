//! The texts of the statuses.

ghost use Rattle.std.specs.Prelude.{◌≡◌, ◌++◌, length, take, drop};
ghost use Rattle.libt85.specs.Message.{message_of};

/// Writes the text of a status, or as much of it as fits, and returns the length of the whole text. It writes no
/// terminating zero.
#[unsafe(no_mangle)]
pub extern "C" fn t85_message(status: u8, text: &mut [u8]) -> usize
    ensures whole { result ≡ length (message_of status) }
    ensures written { text.new ≡ take (length text.old) (message_of status)
        ++ drop (length (message_of status)) text.old }
{
    let message = message_of(status);
    let count = message.len().min(text.len());
    text[..count].copy_from_slice(&message[..count]);
    message.len()
}

/// The text of a status.
fn message_of(status: u8) -> &'static [u8]
    ensures { result.now ≡ message_of status }
{
    match status {
        0 => b"done",
        1 => b"header is shorter than 20 bytes",
        2 => b"reserved bits of the header are set",
        3 => b"differential layers are not supported",
        4 => b"number of planes is not one",
        5 => b"width, height or stripe length is zero",
        6 => b"image is wider than 1048576",
        7 => b"adaptive pixel range is above 127",
        8 => b"private prediction table is not supported",
        9 => b"input ends too early",
        10 => b"unexpected escape code",
        11 => b"image was aborted",
        12 => b"adaptive pixel move is not allowed",
        13 => b"second adaptive pixel move in a stripe",
        14 => b"new height is not allowed",
        15 => b"second new height",
        18 => b"output does not fit in the buffer",
        19 => b"window is shorter than three rows",
        20 => b"options field has a bit outside 0x68",
        21 => b"stripe length is zero",
        22 => b"adaptive pixel offset is out of range",
        23 => b"announced height is below the image's height",
        24 => b"image has more rows than the limit",
        26 => b"comment is too long",
        31 => b"input is not a PBM bitmap",
        32 => b"bad number in the PBM header",
        33 => b"width or height is zero",
        34 => b"image is wider than 1048576",
        35 => b"PBM is taller than 4294967295",
        36 => b"rows of the image are missing",
        38 => b"PBM raster has a byte that is no digit",
        50 => b"struct is of another version",
        51 => b"stride is shorter than a row",
        52 => b"stream has no more parts",
        53 => b"struct is not initialized",
        54 => b"no more rows are accepted",
        55 => b"row is shorter than its width",
        56 => b"stripe is in progress",
        60 => b"header was read",
        61 => b"row was decoded",
        62 => b"more bytes are needed",
        _ => b"unknown status",
    }
}
