//! The calls of the engine's encoder.

ghost use Rattle.std.specs.Prelude.{ℕ, List, ◌≡◌, ◌≤◌, ◌<◌, length, take, false, true};
ghost use Rattle.std.specs.Int.{div_ceil};
ghost use Rattle.raster_core.specs.Window.{width_of};
ghost use Rattle.t85_core.specs.Jbg.{head_of, is_low};
ghost use Rattle.t85_core.specs.Lent.{StaysWindow};
ghost use Rattle.t85_core.specs.Options.{settings_of};
ghost use Rattle.t85_core.specs.RowImage.{image_of};
ghost use Rattle.t85_core.specs.MostBytes.{most_row_bytes};
ghost use Rattle.t85_core.specs.States.RowCalls.{MayEnd, takes_name};
ghost use Rattle.libt85.specs.Decoded.{window_bytes as window_of};
ghost use Rattle.libt85.specs.Delivered.{IsEmptyRoom};
ghost use Rattle.libt85.specs.Encoder.{BeginsStream, EndsStream, HasBeenEnded, TakesName, TakesOne, encoder_hold};
ghost use Rattle.libt85.specs.EncoderSteps.{HasBegun, AwaitsCall};

use crate::encoder::{ENDED, T85Encoder, VERSION, end_in, put_in};
use crate::memory::Room;
use pbm_core::Size;
use raster_core::Window;
use t85_core::laws::{code_denotes, elsewhere};
use t85_core::{Options, RowEncoder};

impl T85Encoder {
    /// Starts a stream that fits, with a window of exactly three rows, and returns the number of bytes written.
    pub(super) fn begin(
        &mut self,
        size: Size,
        options: &Options<'_>,
        memory: &mut [u8],
        stream: &mut [u8],
    ) -> usize
        requires long { length memory.old ≡ window_of size.width }
        requires not_low { is_low (settings_of options.now) size.height ≡ false }
        requires room { length (head_of (settings_of options.now) size.width size.height) ≤ length
            stream.old }
        ensures begun { BeginsStream (image_of (settings_of options.now) size.width size.height)
            (encoder_hold self.new memory.new) (take result stream.new) }
        ensures within { result ≤ length stream.new }
    {
        // The proof uses this law about streams written in parts.
        elsewhere();
        let mut window = Window::over(memory, size.width);
        let mut room = Room::new(stream);
        self.start_in(size, options, &mut window, &mut room);
        room.len
    }

    /// Writes the head of a stream into a buffer that is large enough, so that no write fails.
    fn start_in(
        &mut self,
        size: Size,
        options: &Options<'_>,
        window: &mut Window<'_>,
        room: &mut Room<'_>,
    )
        requires width { width_of window.old ≡ size.width }
        requires not_low { is_low (settings_of options.now) size.height ≡ false }
        requires room { IsEmptyRoom room.old }
        ensures begun { length (head_of (settings_of options.now) size.width size.height) ≤ length
            room.new.bytes.now → HasBegun (settings_of options.now) size self.new window.new
            (take room.new.len room.new.bytes.now) }
        ensures window { StaysWindow window.old window.new }
        ensures same_reference { room.new.bytes.ghost_name ≡ room.old.bytes.ghost_name }
    {
        let started = RowEncoder::start(size, options, window, &mut self.learning, room);
        match started {
            Ok(engine) => {
                self.choose(size, options);
                self.keep(engine.numbers(), window.place());
            }
            Err(_) => {}
        }
    }

    /// Encodes a row that fits, with a window of exactly three rows, and returns the number of bytes written.
    pub(super) fn put(
        &mut self,
        mut engine: RowEncoder,
        row: &[u8],
        memory: &mut [u8],
        stream: &mut [u8],
    ) -> usize
        requires long { length memory.old ≡ window_of self.old.width }
        requires row { length row.now ≡ div_ceil self.old.width 8 }
        requires ready { AwaitsCall self.old engine }
        requires left { engine.rows < engine.size.height }
        requires room { most_row_bytes engine ≤ length stream.old }
        ensures taken { TakesOne (encoder_hold self.old memory.old)
            (encoder_hold self.new memory.new) row.now (take result stream.new) }
        ensures width { self.new.width ≡ self.old.width }
        ensures within { result ≤ length stream.new }
    {
        // The proof uses this law about streams written in parts.
        elsewhere();
        let mut window = Window::resume(memory, self.width, self.place);
        let mut room = Room::new(stream);
        put_in(&mut engine, row, &mut window, &mut self.learning, &mut room);
        let place = window.place();
        self.keep(engine.numbers(), place);
        room.len
    }

    /// Names an offset that is offered before a stripe.
    pub(super) fn name(&mut self, mut engine: RowEncoder, offset: u8)
        requires ready { AwaitsCall self.old engine }
        requires may { takes_name engine offset ≡ true }
        ensures { (window : List ℕ) → TakesName (encoder_hold self.old window)
            (encoder_hold self.new window) offset }
    {
        engine.name_offset(offset).is_ok();
        self.keep(engine.numbers(), self.place);
    }

    /// Ends a stream that fits, with a window of exactly three rows, and returns the number of bytes written.
    pub(super) fn end(
        &mut self,
        mut engine: RowEncoder,
        memory: &mut [u8],
        stream: &mut [u8],
    ) -> usize
        requires long { length memory.old ≡ window_of self.old.width }
        requires ready { AwaitsCall self.old engine }
        requires may_end { MayEnd engine }
        requires room { most_row_bytes engine ≤ length stream.old }
        ensures ends { EndsStream (encoder_hold self.old memory.old) (take result stream.new) }
        ensures ended { HasBeenEnded self.new }
        ensures within { result ≤ length stream.new }
    {
        // The proof uses these laws about streams.
        code_denotes();
        let mut window = Window::resume(memory, self.width, self.place);
        let mut room = Room::new(stream);
        end_in(&mut engine, &mut window, &mut self.learning, &mut room);
        self.version = VERSION;
        self.next = ENDED;
        room.len
    }
}
