//! The fields of a header as they are in its bytes, for a C caller.

ghost use Rattle.libt85.specs.RawHeader.{RawHeaderTold};

use byteorder::{BigEndian, ByteOrder};
use t85_core::Fault;

/// The fields of a header (T.82, 6.2), whatever their values.
#[repr(C)]
#[derive(Clone, Copy)]
pub struct T85RawHeader {
    /// XD.
    pub width: u32,
    /// YD.
    pub height: u32,
    /// L0.
    pub stripe_rows: u32,
    /// DL.
    pub first_layer: u32,
    /// D.
    pub last_layer: u32,
    /// P.
    pub planes: u32,
    /// The fourth byte, which is 0 in an accepted header.
    pub fill: u32,
    /// MX.
    pub most_offset: u32,
    /// MY.
    pub most_vertical_offset: u32,
    pub order: u32,
    pub options: u32,
}

/// Returns all fields of a header, whether or not it is accepted. Returns 0; or 1 if there are fewer than 20 bytes, and
/// then `header` is unchanged.
#[unsafe(no_mangle)]
pub extern "C" fn t85_raw_header(stream: &[u8], header: &mut T85RawHeader) -> u8
    ensures { RawHeaderTold stream.now header.old header.new result }
{
    if stream.len() < 20 {
        return Fault::ShortHeader.number();
    }
    *header = T85RawHeader {
        width: BigEndian::read_u32(&stream[4..]),
        height: BigEndian::read_u32(&stream[8..]),
        stripe_rows: BigEndian::read_u32(&stream[12..]),
        first_layer: u32::from(stream[0]),
        last_layer: u32::from(stream[1]),
        planes: u32::from(stream[2]),
        fill: u32::from(stream[3]),
        most_offset: u32::from(stream[16]),
        most_vertical_offset: u32::from(stream[17]),
        order: u32::from(stream[18]),
        options: u32::from(stream[19]),
    };
    0
}
