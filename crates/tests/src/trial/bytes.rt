//! Converts the bytes in the tables of tests from their notation.

ghost use Rattle.std.specs.Prelude.{◌≡◌, IfOk, filter_map};
ghost use Rattle.tests.specs.Trial.{hex_digit, paired};

use std::alloc::{AllocError, Global};

/// The bytes of a text of upper-case hexadecimal digits. Its other characters are skipped.
fn bytes_of(alloc: Global, hex: &str) -> Result<Vec<u8>, AllocError>
    ensures { IfOk result (λ v. v.items ≡ paired (filter_map hex_digit hex.now)) }
{
    let mut bytes = Vec::new(alloc);
    let mut high: Option<u8> = None;
    for c in hex.bytes() {
        let digit = match c {
            b'0'..=b'9' => c - b'0',
            b'A'..=b'F' => c - b'A' + 10,
            _ => continue,
        };
        match high {
            None => high = Some(digit),
            Some(h) => {
                bytes.push(h * 16 + digit)?;
                high = None;
            }
        }
    }
    Ok(bytes)
}

/// The image of this size and these rows.
fn pbm_of(alloc: Global, size: &str, rows: &str) -> Result<Vec<u8>, AllocError> {
    let header = format!(in alloc; "P4\n{size}\n")?;
    let mut image = header.as_bytes().to_vec(alloc)?;
    image.extend_from_slice(bytes_of(alloc, rows)?.as_slice())?;
    Ok(image)
}

/// Bytes in the notation of a table.
#[derive(Clone, Copy)]
pub enum Bytes<'a> {
    Raw(&'a [u8]),
    /// An image in the plain form, and the length of its header.
    Plain(&'a [u8], usize),
    /// A stream, as hexadecimal digits.
    Hex(&'a str),
    /// An image of this size, with these rows as hexadecimal digits.
    Image(&'a str, &'a str),
}

impl Bytes<'_> {
    pub fn to_vec(self, alloc: Global) -> Result<Vec<u8>, AllocError> {
        match self {
            Bytes::Raw(bytes) | Bytes::Plain(bytes, _) => bytes.to_vec(alloc),
            Bytes::Hex(digits) => bytes_of(alloc, digits),
            Bytes::Image(size, rows) => pbm_of(alloc, size, rows),
        }
    }

    /// The length of the header of a stream or of an image.
    pub fn header(self) -> Option<usize> {
        match self {
            Bytes::Raw(_) => None,
            Bytes::Plain(_, header) => Some(header),
            Bytes::Hex(_) => Some(20),
            Bytes::Image(size, _) => Some("P4\n\n".len().saturating_add(size.len())),
        }
    }
}
