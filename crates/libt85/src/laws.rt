//! Laws about the results of the library's functions.

ghost use Rattle.libt85.specs.Laws.{DecodedAreRows, DecodedIsImage, EncodedIsStream, SentIsFront};

use t85_core::laws::{fronts, rasters};

/// The meaning of status 0.
pub fn answers()
    // `t85_decode` has written the image of the one raster that the stream denotes.
    ensures image { DecodedIsImage }
    // `t85_decode_rows` has written the rows of that raster.
    ensures rows { DecodedAreRows }
    // `t85_encode` has written a stream that denotes one raster of this size.
    ensures stream { EncodedIsStream }
{
    rasters();
}

/// The bytes written so far of an image that is encoded row by row.
pub fn sent_rows()
    ensures { SentIsFront }
{
    fronts();
}
