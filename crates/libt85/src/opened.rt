//! A stream whose header has been read, and whose height is known.

ghost use Rattle.std.specs.Prelude.{◌≡◌, ◌≤◌, drop, Some, IfOk, IfErr};
ghost use Rattle.t85_core.specs.Options.{fields_of};
ghost use Rattle.t85_core.specs.Header.{HeaderOf, header_fault};
ghost use Rattle.t85_core.specs.Height.{IsHeight};

use crate::memory::Whole;
use t85_core::laws::headers;
use t85_core::{Fault, Header, find_height};

/// The header, the actual height, and the bytes after the header.
#[derive(Clone, Copy)]
pub struct Opened<'a> {
    pub header: Header,
    pub height: u32,
    pub body: &'a [u8],
}

/// The header of a stream.
#[inline(always)]
pub fn read_header(stream: &[u8]) -> Result<Header, Fault>
    ensures accepted { IfOk result (λ h. HeaderOf stream.now (fields_of h)) }
    ensures refused { IfErr result (λ f. header_fault stream.now ≡ Some f) }
{
    // The proof uses these laws about headers.
    headers();
    let mut input = Whole { rest: stream };
    Header::read(&mut input)
}

/// Reads the header, and finds the height if it may change.
#[inline(always)]
pub fn open(stream: &[u8]) -> Result<Opened<'_>, Fault>
    ensures accepted { IfOk result (λ o. HeaderOf stream.now (fields_of o.header)) }
    ensures refused { IfErr result (λ f. header_fault stream.now ≡ Some f) }
    ensures body { IfOk result (λ o. o.body.now ≡ drop 20 stream.now) }
    ensures height { IfOk result
        (λ o. IsHeight (fields_of o.header) (drop 20 stream.now) o.height) }
    ensures from { IfOk result (λ o. 1 ≤ o.height) }
    ensures to { IfOk result (λ o. o.height ≤ o.header.yd) }
{
    let header = read_header(stream)?;
    let (_, body) = stream.split_at(20);
    let mut first = Whole { rest: body };
    let height = find_height(&header, &mut first)?;
    Ok(Opened {
        header,
        height,
        body,
    })
}
