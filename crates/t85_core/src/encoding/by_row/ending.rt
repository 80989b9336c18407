//! The end of an image that is encoded row by row.

use crate::encoding::by_row::RowEncoder;
use crate::encoding::learning::Learning;
use crate::fault::Fault;
use crate::output_buffer::{OutputBuffer, ROW_HELD};
use devices::Output;
use raster_core::Window;

impl RowEncoder {
    ghost use Rattle.std.specs.Prelude.{◌<◌, ◌-◌, OnOk, OnErr};
    ghost use Rattle.raster_core.specs.Window.{held};
    ghost use Rattle.t85_core.specs.Lent.{StaysWindow};
    ghost use Rattle.t85_core.specs.MostBytes.{AppendsEnd};
    ghost use Rattle.t85_core.specs.States.RowSteps.{IsGoing};
    ghost use Rattle.t85_core.specs.States.Views.{text_taken};
    ghost use Rattle.t85_core.specs.Private.Views.{WritesBehind};
    ghost use Rattle.t85_core.specs.States.RowCalls.{LeavesClosed, MayEnd};
    ghost use Rattle.t85_core.specs.Private.RowCalls.{HasRows};
    ghost use Rattle.t85_core.specs.declared.encoding.learning.Learning.{Learning};
    ghost use Rattle.t85_core.specs.States.ByRow.{view_of, MayGoOn, EndsImage, CutsImage};

    /// Ends the stream, and writes the buffer.
    pub(super) fn end_held<W: Output>(
        &mut self,
        window: &mut Window<'_>,
        learning: &mut Learning,
        buffer: &mut OutputBuffer<'_, W, ROW_HELD>,
    ) -> Result<(), Fault>
        requires lined { HasRows self.old.size.width window.old }
        requires open_ { IsGoing self.old }
        requires ready { MayEnd self.old × MayGoOn self.old }
        ensures ok { OnOk result (EndsImage (view_of self.old learning.old) (held window.old)
            (text_taken buffer.old) (W.view buffer.new.output.now).contents) }
        ensures cut { OnErr result (CutsImage (view_of self.old learning.old) (held window.old)
            (text_taken buffer.old) (text_taken buffer.new)) }
        ensures few { AppendsEnd self.old (text_taken buffer.old) (text_taken buffer.new) }
        ensures ended { LeavesClosed self.old self.new result }
        ensures window { StaysWindow window.old window.new }
        ensures writes { WritesBehind buffer.old buffer.new result }
    {
        self.end(window, learning, buffer)?;
        buffer.write_held()
    }
}
