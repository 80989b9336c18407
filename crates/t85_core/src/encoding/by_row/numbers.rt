//! Exports and restores a row encoder as plain numbers.

ghost use Rattle.std.specs.Prelude.{◌≡◌, true, false, IfSome, IsSomeAnd};
ghost use Rattle.t85_core.specs.Jbg.{is_low};
ghost use Rattle.t85_core.specs.Options.{settings_of};
ghost use Rattle.t85_core.specs.RowNumbers.{row_numbers};

use crate::encoding::by_row::RowEncoder;
use crate::options::Options;
use pbm_core::Size;
use qm_core::{Encoder, EncoderRegisters};
use raster_core::Kept;

/// The state of a row encoder that is not closed, as numbers that anyone may store. To continue, it also needs its size
/// and options, the memory and the place of the window, and the context states and counts.
#[derive(Clone, Copy, PartialEq, Eq, Debug)]
pub struct RowNumbers {
    /// The number of rows encoded.
    pub rows: u32,
    /// The number of those that belong to the current stripe.
    pub in_stripe: u32,
    /// Whether the rows of the current stripe are counted in the tally.
    pub is_counted: bool,
    /// The offset of the adaptive template pixel.
    pub offset: u8,
    /// Whether the row before was typical.
    pub is_previous_typical: bool,
    /// The offset that was named for the stripe that begins next.
    pub named: Option<u8>,
    pub encoder: EncoderRegisters,
}

impl RowNumbers {
    ghost use Rattle.t85_core.specs.RowNumbers.{AreWithin};

    /// Whether an encoder of this size, with this number of rows per stripe, can have reached this state.
    fn are_within(&self, size: Size, stripe_rows: u32) -> bool
        ensures within { result ≡ true → AreWithin size.width size.height stripe_rows self.now }
        ensures all { AreWithin size.width size.height stripe_rows self.now → result ≡ true }
    {
        self.offset <= 127
            && self.named.unwrap_or(0) <= 127
            && self.in_stripe < stripe_rows
            && self.in_stripe <= self.rows
            && self.rows <= size.height
            && self.encoder.events <= u64::from(self.in_stripe) * (u64::from(size.width) + 1)
    }
}

impl RowEncoder {
    ghost use Rattle.std.specs.Prelude.{◌<◌};
    ghost use Rattle.t85_core.specs.States.ByRow.{plan_of, view_of, IsPlan, MayGoOn};
    ghost use Rattle.t85_core.specs.RowImage.{image_for};
    ghost use Rattle.t85_core.specs.States.RowSteps.{IsGoing};
    ghost use Rattle.t85_core.specs.declared.encoding.by_row.RowEncoder.{RowEncoder};
    ghost use Rattle.t85_core.specs.declared.encoding.learning.Learning.{Learning};

    /// The state as numbers. They do not include whether the encoder is closed.
    pub fn numbers(&self) -> RowNumbers
        ensures { result ≡ row_numbers self.now }
    {
        RowNumbers {
            rows: self.rows,
            in_stripe: self.in_stripe,
            is_counted: self.is_counted,
            offset: self.kept.offset,
            is_previous_typical: self.kept.previous_typical,
            named: self.named,
            encoder: self.encoder.registers(),
        }
    }

    /// The encoder of this size and with these options that has these numbers and is not closed, if there is one. The
    /// next call must borrow the window, and the context states and counts, as the last call left them; with others it
    /// is only safe.
    pub fn resume(size: Size, options: &Options<'_>, numbers: &RowNumbers) -> Option<RowEncoder>
        ensures resumes { (e : RowEncoder) → is_low (settings_of options.now) size.height ≡ false →
            IsPlan (image_for options.now size) (plan_of e) → MayGoOn e →
            numbers.now ≡ row_numbers e → IsSomeAnd result (λ r. (l : Learning) →
            view_of r l ≡ view_of e l) }
        ensures ready { IfSome result MayGoOn }
        ensures plan { IfSome result (λ r. IsPlan (image_for options.now size) (plan_of r)) }
        ensures numbers { IfSome result (λ r. row_numbers r ≡ numbers.now) }
        ensures size { IfSome result (λ r. r.size ≡ size) }
        ensures going { IfSome result IsGoing }
    {
        if options.is_low(size) || !numbers.are_within(size, options.stripe_rows) {
            return None;
        }
        let encoder = Encoder::from_registers(numbers.encoder)?;
        let mut resumed = RowEncoder::new(size, options);
        resumed.kept = Kept {
            offset: numbers.offset,
            previous_typical: numbers.is_previous_typical,
        };
        resumed.encoder = encoder;
        resumed.rows = numbers.rows;
        resumed.in_stripe = numbers.in_stripe;
        resumed.is_counted = numbers.is_counted;
        resumed.named = numbers.named;
        Some(resumed)
    }
}
