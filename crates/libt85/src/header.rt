//! The fields of a stream's header, for a C caller.

ghost use Rattle.libt85.specs.Header.{HeaderTold};

use crate::opened::read_header;

/// The fields of a stream's header.
#[repr(C)]
#[derive(Clone, Copy)]
pub struct T85Header {
    pub width: u32,
    pub height: u32,
    pub stripe_rows: u32,
    pub most_offset: u32,
    pub options: u32,
}

/// Returns the fields of a stream's header. Returns 0, or the number of the error for which the header is rejected, and
/// then `header` is unchanged.
#[unsafe(no_mangle)]
pub extern "C" fn t85_header(stream: &[u8], header: &mut T85Header) -> u8
    ensures { HeaderTold stream.now header.old header.new result }
{
    match read_header(stream) {
        Ok(found) => {
            *header = T85Header {
                width: found.xd,
                height: found.yd,
                stripe_rows: found.l0,
                most_offset: u32::from(found.mx),
                options: u32::from(found.options),
            };
            0
        }
        Err(fault) => fault.number(),
    }
}
