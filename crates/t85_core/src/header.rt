//! The header: the first twenty bytes of a stream (T.82, 6.2).

ghost use Rattle.std.specs.Prelude.{◌≡◌, ◌≢◌, ◌≤◌, ◌<◌, ◌%◌, ◌^◌, length, OnOk, IfErr};
ghost use Rattle.std.specs.Io.KnownBytes.{Consumes};
ghost use Rattle.t85_core.specs.declared.fault.Fault.TheVariants.{ShortHeader};
ghost use Rattle.t85_core.specs.Failures.{CountsRead, Ends};

use crate::fault::Fault;
use byteorder::{BigEndian, ByteOrder};
use devices::{DeviceFailed, Input};
use raster_core::Shape;

/// The fields of an accepted header. Its other bytes have no meaning.
#[derive(Clone, Copy, Debug, PartialEq, Eq)]
pub struct Header {
    /// XD, the width: 1 to 1,048,576.
    pub xd: u32,
    /// YD, the height, or with VLENGTH the greatest possible height: at least 1.
    pub yd: u32,
    /// L0, the rows per stripe: at least 1.
    pub l0: u32,
    /// MX, the greatest horizontal offset of the adaptive template pixel: 0 to 127.
    pub mx: u8,
    pub options: u8,
    ghost some_width: { 1 ≤ xd },
    ghost not_too_wide: { xd ≤ 1048576 },
    ghost some_height: { 1 ≤ yd },
    ghost not_too_tall: { yd < 2 ^ 32 },
    ghost some_rows: { 1 ≤ l0 },
    ghost not_too_long: { l0 < 2 ^ 32 },
    ghost in_range: { mx ≤ 127 },
    ghost no_reserved_bit: { options < 128 },
    ghost no_private_table: { options % 8 ≢ 6 },
}

/// An image whose height in use is known.
#[derive(Clone, Copy)]
pub struct SizedImage {
    pub header: Header,
    /// At least 1, and at most the header's.
    pub height: u32,
    ghost from: { 1 ≤ height },
    ghost to: { height ≤ header.yd },
}

impl Header {
    ghost use Rattle.std.specs.Prelude.{ℕ, List, ◌^◌, length, Ok, Err, IfOk, IfErr, MatchResult, OnOk, None, Some};
    ghost use Rattle.std.specs.Io.KnownBytes.{Consumes};
    ghost use Rattle.t85_core.specs.Failures.{counted_as};
    ghost use Rattle.t85_core.specs.Header.{HeaderOf, header_fault, header_bytes};
    ghost use Rattle.t85_core.specs.Options.{fields_of};
    ghost use Rattle.raster_core.specs.Window.{shape_mode};
    ghost use Rattle.t85_core.specs.Coding.{has_bit, mode_of};

    /// Reads a header, and no byte after it.
    #[inline(always)]
    pub fn read<R: Input>(input: &mut R) -> Result<Header, Fault>
        ensures accepted { IfOk result (λ h. (given : List ℕ) × (length given ≡ 20)
            × Consumes (R.view input.old).remaining (R.view input.new).remaining given ×
            HeaderOf given (fields_of h)) }
        ensures refused { IfErr result (Ends ShortHeader (R.view input.old).remaining
            (R.view input.new).remaining
            (λ given fault. (length given ≤ 20) × (header_fault given ≡ Some fault))) }
        ensures counts { CountsRead (R.view input.old).failures (R.view input.new).failures result }
    {
        let mut bytes = [0; 20];
        fill(input, &mut bytes)?;
        Header::accept(&bytes)
    }

    /// Checks the twenty bytes, in a fixed order.
    #[inline(always)]
    pub(crate) fn accept(bytes: &[u8; 20]) -> Result<Header, Fault>
        ensures accepted { IfOk result (λ h. HeaderOf bytes.now (fields_of h)) }
        ensures refused { MatchResult result (λ _. header_fault bytes.now ≡ None)
            (λ f. header_fault bytes.now ≡ Some f) }
        ensures judged { IfErr result (λ f. (counted_as ShortHeader f ≡ f) × (f ≢ ShortHeader)) }
    {
        let xd = BigEndian::read_u32(&bytes[4..]);
        let yd = BigEndian::read_u32(&bytes[8..]);
        let l0 = BigEndian::read_u32(&bytes[12..]);
        let mx = bytes[16];
        let options = bytes[19];
        if bytes[3] != 0 || bytes[18] >= 16 || options >= 128 {
            return Err(Fault::ReservedBits);
        }
        if bytes[0] != 0 || bytes[1] != 0 {
            return Err(Fault::Layers);
        }
        if bytes[2] != 1 {
            return Err(Fault::Planes);
        }
        if xd == 0 || yd == 0 || l0 == 0 {
            return Err(Fault::ZeroSize);
        }
        if xd > 1_048_576 {
            return Err(Fault::TooWide);
        }
        if mx > 127 {
            return Err(Fault::MoveRange);
        }
        if options % 8 == 6 {
            return Err(Fault::PrivateTable);
        }
        Ok(Header {
            xd,
            yd,
            l0,
            mx,
            options,
        })
    }

    /// How rows are coded: LRLTWO is bit 0x40 of the options, TPBON is bit 0x08.
    pub(crate) fn shape(&self) -> Shape
        ensures width { result.width ≡ self.now.xd }
        ensures mode { shape_mode result ≡ mode_of self.now.options }
    {
        Shape {
            width: self.xd,
            two_line: self.options & 0x40 != 0,
            typical: self.options & 0x08 != 0,
        }
    }

    /// Whether the stream may contain a NEWLEN: VLENGTH, bit 0x20 of the options.
    pub(crate) fn is_variable(&self) -> bool
        ensures { result ≡ has_bit self.now.options 5 }
    {
        self.options & 0x20 != 0
    }

    /// The header as bytes, with MY and the order byte 0.
    pub fn bytes(&self) -> [u8; 20]
        ensures { result ≡ header_bytes (fields_of self.now) }
    {
        let mut bytes = [0; 20];
        bytes[2] = 1;
        BigEndian::write_u32(&mut bytes[4..8], self.xd);
        BigEndian::write_u32(&mut bytes[8..12], self.yd);
        BigEndian::write_u32(&mut bytes[12..16], self.l0);
        bytes[16] = self.mx;
        bytes[19] = self.options;
        bytes
    }
}

/// Fills the buffer from the input, and consumes nothing more.
fn fill<R: Input>(input: &mut R, buf: &mut [u8]) -> Result<(), Fault>
    ensures filled { OnOk result (Consumes (R.view input.old).remaining (R.view input.new).remaining
        buf.new) }
    ensures short { IfErr result (Ends ShortHeader (R.view input.old).remaining (R.view
        input.new).remaining (λ given fault. (length given < length buf.old) × (fault ≡
        ShortHeader))) }
    ensures counts { CountsRead (R.view input.old).failures (R.view input.new).failures result }
{
    let mut at = 0;
    while at < buf.len() {
        match input.read(&mut buf[at..]) {
            Ok(0) => return Err(Fault::ShortHeader),
            Ok(n) => at += n,
            Err(DeviceFailed) => return Err(Fault::Read),
        }
    }
    Ok(())
}
