//! The offset that the caller names for the next stripe.

use crate::encoding::by_row::RowEncoder;
use crate::encoding::learning::Learning;
use crate::fault::Fault;

impl RowEncoder {
    ghost use Rattle.std.specs.Prelude.{◌≡◌, ◌<◌, ◌-◌, OnOk, IfErr, Err, is_ok};
    ghost use Rattle.t85_core.specs.States.RowCalls.{CodesNothing, takes_name};
    ghost use Rattle.t85_core.specs.declared.encoding.learning.Learning.{Learning};
    ghost use Rattle.t85_core.specs.declared.fault.Fault.TheVariants.{MoveRefused};
    ghost use Rattle.t85_core.specs.States.ByRow.{view_of, NamesOffset, MayGoOn};
    ghost use Rattle.t85_core.specs.RowImage.{may_name};

    /// Names the offset of the adaptive pixel for the stripe that begins with the next row, in place of the offset that
    /// the rows before it choose. It may be the nominal one, 0, or one from 5 (two-line template) or 3 (three-line
    /// template) to the greatest offset of the options. The last name counts. With another offset, within a stripe, and
    /// after the end or a failed write, nothing changes.
    pub fn name_offset(&mut self, offset: u8) -> Result<(), Fault>
        ensures named { OnOk result ((learning : Learning) → NamesOffset offset
            (view_of self.old learning) (view_of self.new learning)) }
        ensures taken { is_ok result ≡ takes_name self.old offset }
        ensures refused { IfErr result (λ f. (f ≡ MoveRefused) × (self.new ≡ self.old)) }
        ensures keeps { CodesNothing self.old self.new }
        ensures ready { MayGoOn self.old → MayGoOn self.new }
    {
        if self.takes_name(offset) {
            self.named = Some(offset);
            Ok(())
        } else {
            Err(Fault::MoveRefused)
        }
    }

    /// Whether an offset may be named now.
    fn takes_name(&self, offset: u8) -> bool
        ensures { result ≡ takes_name self.now offset }
    {
        !self.is_closed && self.in_stripe == 0 && self.offers(offset)
    }

    /// Whether the options allow this offset to be named.
    pub fn offers(&self, offset: u8) -> bool
        ensures { result ≡ may_name self.now.shape.two_line self.now.most_offset offset }
    {
        let least = if self.shape.two_line { 5 } else { 3 };
        offset == 0 || (least <= offset && offset <= self.most_offset)
    }
}
