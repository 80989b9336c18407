//! Producers of the rows of an image.

ghost use Rattle.std.specs.Prelude.{◌≡◌, ◌≤◌, ◌<◌, ◌++◌, ℕ, List, IfSome, None, Some, length};
ghost use Rattle.std.specs.Io.KnownBytes.{Consumes};
ghost use Rattle.devices.specs.Device.{InputView, SameInput};
ghost use Rattle.pbm_core.specs.Image.{IsRowOf, RowFault};
ghost use Rattle.pbm_core.specs.Pbm.{bytes_of_row};
ghost use Rattle.pbm_core.specs.Reading.{Reads};
ghost use Rattle.pbm_core.specs.declared.form.Form.TheVariants.{Raw};
ghost use Rattle.t85_core.specs.RowSink.{copies};
ghost use Rattle.t85_core.specs.RowSource.{RowOrigin};

use devices::Input;
use pbm_core::{Form, PbmFault, Size, read_row};

/// A producer of the rows of an image.
pub trait RowSource {
    /// The bytes of the rows still to come.
    ghost view: { Self → InputView };

    /// The form of these bytes, the length of a row if it is fixed, and the input that they come from.
    ghost origin: { Self → RowOrigin };

    /// Reads the next row into a buffer of `row_bytes` bytes: its pixels, packed, with the bits after the last pixel set
    /// to 0. After an error, the contents of the buffer are unspecified.
    fn next_row(&mut self, size: Size, row: &mut [u8]) -> Result<(), PbmFault>
        requires whole { length row.old ≡ bytes_of_row size.width }
        requires fits { IfSome (origin self.old).row (λ n. n ≡ bytes_of_row size.width) }
        ensures read { Reads (view self.old) (view self.new) result
            (λ given _. IsRowOf (origin self.old).form size.width given row.new)
            (RowFault (origin self.old).form size.width) }
        ensures same_origin { origin self.new ≡ origin self.old };

    /// Moves past the next rows, as long as their bytes are these, at most `most` rows, and returns how many. A source of
    /// rows of one length knows all of them in advance; another one may return fewer than there are.
    fn pass_equal(&mut self, size: Size, row: &[u8], most: u32) -> u32
        requires whole { length row.now ≡ bytes_of_row size.width }
        requires fits { IfSome (origin self.old).row (λ n. n ≡ bytes_of_row size.width) }
        ensures few { result ≤ most }
        ensures passed { 0 < result → ((origin self.old).form ≡ Raw) × Consumes
            (view self.old).remaining (view self.new).remaining (copies result row.now) }
        ensures all { result < most → IfSome (origin self.old).row (λ _. (rest : List ℕ) →
            (view self.new).remaining ≡ Some (row.now ++ rest) → ⊥) }
        ensures none { result ≡ 0 → self.new ≡ self.old }
        ensures unfailed { (view self.new).failures ≡ (view self.old).failures }
        ensures same_input { SameInput (view self.old) (view self.new) }
        ensures same_origin { origin self.new ≡ origin self.old };
}

/// The rows of a PBM, behind its header.
#[derive(Drop)]
pub struct PbmRows<'a, R: Input> {
    pub input: &'a mut R,
    pub form: Form,
}

impl<R: Input> RowSource for PbmRows<'_, R> {
    ghost view = { λ s. R.view s.input.now };

    ghost origin = { λ s. record { form = s.form; row = None; reference = s.input.ghost_name } };

    fn next_row(&mut self, size: Size, row: &mut [u8]) -> Result<(), PbmFault> {
        read_row(self.input, size, self.form, row)
    }

    #[inline(always)]
    fn pass_equal(&mut self, _size: Size, _row: &[u8], _most: u32) -> u32 {
        0
    }
}
