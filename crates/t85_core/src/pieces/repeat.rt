//! Rows of a stream in pieces that equal the one before.

ghost use Rattle.std.specs.Prelude.{◌≡◌, ◌<◌};
ghost use Rattle.t85_core.specs.Lent.{KeepsLent, KeepsWindow, decoder_lent, decoder_over};
ghost use Rattle.t85_core.specs.Repeats.{CanRepeat, Repeats};

use crate::lent::Lent;
use crate::pieces::PieceDecoder;
use crate::pieces::course::Stage;
use crate::pieces::phase::Phase;
use qm_core::Learned;
use raster_core::Window;

impl PieceDecoder {
    /// Decodes further rows that equal the row decoded last, at most `most`, and returns how many. These rows count as
    /// returned; the window contains the last of them. It stops before a row that may differ, that a move precedes or
    /// whose code has not arrived, and at the end of the stripe.
    pub fn repeat(&mut self, window: &mut Window<'_>, learned: &mut Learned, most: u32) -> u32
        ensures repeats { Repeats most (decoder_over self.old window.old learned.old)
            (decoder_over self.new window.new learned.new) result }
        ensures all { result < most →
            CanRepeat (decoder_over self.new window.new learned.new) → ⊥ }
        ensures window { KeepsWindow window.old window.new }
        ensures none { result ≡ 0 → window.new ≡ window.old }
    {
        let mut lent = Lent { window, learned };
        self.repeat_all(&mut lent, most)
    }

    /// Decodes all such rows.
    fn repeat_all(&mut self, lent: &mut Lent<'_, '_>, most: u32) -> u32
        ensures repeats { Repeats most (decoder_lent self.old lent.old)
            (decoder_lent self.new lent.new) result }
        ensures all { result < most → CanRepeat (decoder_lent self.new lent.new) → ⊥ }
        ensures lent { KeepsLent lent.old lent.new }
        ensures none { result ≡ 0 → lent.new.window.now ≡ lent.old.window.now }
    {
        match &mut self.phase {
            Phase::Known(stage) => match stage {
                Stage::Code(code) => code.repeat(&self.image, &mut self.course, lent, most),
                _ => 0,
            },
            Phase::Code(code) => {
                if code.end_marker().is_some() {
                    return 0;
                }
                code.repeat(&self.image, &mut self.course, lent, most)
            }
            _ => 0,
        }
    }
}
