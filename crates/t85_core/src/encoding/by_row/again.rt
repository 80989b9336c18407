//! Encodes rows that equal the row before them, several at once.

use crate::encoding::by_row::RowEncoder;
use crate::encoding::learning::Learning;
use crate::encoding::steps::{code_again, count_again};
use crate::fault::Fault;
use crate::laws::writing_laws;
use crate::output_buffer::ByteTarget;
use crate::row_source::RowSource;
use pbm_core::laws::rows;
use raster_core::Window;

impl RowEncoder {
    ghost use Rattle.std.specs.Prelude.{◌≡◌, ◌≤◌, ◌<◌, ◌+◌, IfSome, OnOk, OnErr, true};
    ghost use Rattle.devices.specs.Device.{SameInput};
    ghost use Rattle.pbm_core.specs.Pbm.{bytes_of_row};
    ghost use Rattle.raster_core.specs.Window.{held};
    ghost use Rattle.t85_core.specs.Lent.{KeepsWindow};
    ghost use Rattle.t85_core.specs.RowSink.{WritesOn};
    ghost use Rattle.t85_core.specs.States.ByRow.{IsLined, MayGoOn, lent_to};
    ghost use Rattle.t85_core.specs.States.RowSteps.{IsGoing};
    ghost use Rattle.t85_core.specs.Private.AgainRows.{CodesAgain, CodesEqual, CutsAgain, CutsEqual, IsTypical, TakesMore};
    ghost use Rattle.t85_core.specs.Private.RowCalls.{HasRows};

    /// Encodes the next rows of a source, as long as they equal the window's current row and do not end the stripe, if
    /// this row is typical.
    #[inline(always)]
    pub(crate) fn put_equal<S: RowSource, P: ByteTarget>(
        &mut self,
        window: &mut Window<'_>,
        learning: &mut Learning,
        source: &mut S,
        target: &mut P,
    ) -> Result<(), Fault>
        requires lined { HasRows self.old.size.width window.old }
        requires row { IfSome (S.origin source.old).row
            (λ n. n ≡ bytes_of_row self.old.size.width) }
        requires going { IsGoing self.old }
        requires ready { MayGoOn self.old }
        ensures ok { OnOk result (CodesEqual (S.origin source.old).form
            (S.view source.old).remaining (S.view source.new).remaining
            (lent_to self.old learning.old (held window.old) (P.view target.old).text)
            (lent_to self.new learning.new (held window.new) (P.view target.new).text)) }
        ensures cut { OnErr result (CutsEqual (S.origin source.old).form
            (S.view source.old).remaining (S.view source.new).remaining
            (lent_to self.old learning.old (held window.old) (P.view target.old).text)
            (P.view target.new).text) }
        ensures goes_on { TakesMore self.old self.new result }
        ensures lined { OnOk result (IsLined (held window.new)) }
        ensures window { KeepsWindow window.old window.new }
        ensures reads { (S.view source.new).failures ≡ (S.view source.old).failures }
        ensures same_input { SameInput (S.view source.old) (S.view source.new) }
        ensures same_origin { S.origin source.new ≡ S.origin source.old }
        ensures writes { WritesOn (P.view target.old) (P.view target.new) result }
    {
        // The proof uses these laws about rows.
        rows();
        let most = self.most_again();
        let count = source.pass_equal(self.size, window.row(0), most);
        if count == 0 {
            return Ok(());
        }
        self.put_again(count, window, learning, target)
    }

    /// The number of further rows that may be encoded as equal to the current one: none unless this one is typical, and
    /// fewer than end the stripe.
    fn most_again(&self) -> u32
        requires ready { MayGoOn self.now }
        ensures typical { 0 < result → IsTypical self.now }
        ensures fewer { self.now.in_stripe + result < self.now.stripe_rows }
        ensures left { self.now.rows + result ≤ self.now.size.height }
    {
        if self.in_stripe == 0 || !self.shape.typical || !self.kept.previous_typical {
            return 0;
        }
        (self.stripe_rows - self.in_stripe - 1).min(self.size.height - self.rows)
    }

    /// Encodes this many rows that equal the window's current row, which is typical. They do not end the stripe.
    fn put_again<P: ByteTarget>(
        &mut self,
        count: u32,
        window: &mut Window<'_>,
        learning: &mut Learning,
        target: &mut P,
    ) -> Result<(), Fault>
        requires some { 0 < count }
        requires lined { HasRows self.old.size.width window.old }
        requires ready { MayGoOn self.old }
        requires typical { IsTypical self.old }
        requires fewer { self.old.in_stripe + count < self.old.stripe_rows }
        requires left { self.old.rows + count ≤ self.old.size.height }
        ensures ok { OnOk result (CodesAgain count
            (lent_to self.old learning.old (held window.old) (P.view target.old).text)
            (lent_to self.new learning.new (held window.new) (P.view target.new).text)) }
        ensures cut { OnErr result (CutsAgain count
            (lent_to self.old learning.old (held window.old) (P.view target.old).text)
            (P.view target.new).text) }
        ensures goes_on { TakesMore self.old self.new result }
        ensures lined { OnOk result (IsLined (held window.new)) }
        ensures window { KeepsWindow window.old window.new }
        ensures writes { WritesOn (P.view target.old) (P.view target.new) result }
    {
        // The proof uses these laws of the coder.
        writing_laws();
        self.is_closed = true;
        window.repeat();
        self.rows += count;
        self.in_stripe += count;
        let (learned, encoder) = (&mut learning.learned, &mut self.encoder);
        code_again(self.shape, self.kept, count, learned, encoder, target)?;
        let counted = self.counted();
        count_again(counted, window, count, &mut learning.tally);
        self.is_closed = false;
        Ok(())
    }
}
