//! The state of a row encoder as the struct stores it.

ghost use Rattle.std.specs.Prelude.{◌≡◌, ◌<◌, Some, None, MatchOption, MatchResult};
ghost use Rattle.t85_core.specs.Options.{refusal_of, settings_of};
ghost use Rattle.libt85.specs.Encoder.{numbers_of_encoder, settings_kept, without_comment};
ghost use Rattle.libt85.specs.EncoderSteps.{GoesOnFrom, IsIdle, IsOfNone, AwaitsCall, KeepsChoices};

use crate::encoder::{ENDED, ROWS, T85Encoder, VERSION};
use crate::encoding::MOST_WIDTH;
use crate::status::{NO_MORE_ROWS, NOT_BEGUN};
use pbm_core::Size;
use qm_core::EncoderRegisters;
use t85_core::{Fault, Options, RowEncoder, RowNumbers};

impl T85Encoder {
    /// The numbers of the engine's encoder.
    pub(super) fn numbers(&self) -> RowNumbers
        ensures { result ≡ numbers_of_encoder self.now }
    {
        RowNumbers {
            rows: self.rows,
            in_stripe: self.in_stripe,
            is_counted: self.is_counted != 0,
            offset: self.offset,
            is_previous_typical: self.is_previous_typical != 0,
            named: (self.has_name != 0).then_some(self.named),
            encoder: EncoderRegisters {
                low: self.low,
                span: self.span,
                bits: self.bits,
                zeros: self.zeros,
                has_held: self.has_held != 0,
                held: self.held,
                ones: self.ones,
                events: self.events,
                has_failed: self.has_failed != 0,
            },
        }
    }

    /// Stores the numbers of the engine's encoder, and the place of its row in the window.
    pub(super) fn keep(&mut self, numbers: RowNumbers, place: u8)
        ensures numbers { numbers_of_encoder self.new ≡ numbers }
        ensures place { self.new.place ≡ place }
        ensures same { KeepsChoices self.old self.new }
    {
        self.place = place;
        self.rows = numbers.rows;
        self.in_stripe = numbers.in_stripe;
        self.is_counted = u8::from(numbers.is_counted);
        self.offset = numbers.offset;
        self.is_previous_typical = u8::from(numbers.is_previous_typical);
        self.has_name = u8::from(numbers.named.is_some());
        self.named = numbers.named.unwrap_or(0);
        self.low = numbers.encoder.low;
        self.span = numbers.encoder.span;
        self.bits = numbers.encoder.bits;
        self.zeros = numbers.encoder.zeros;
        self.has_held = u8::from(numbers.encoder.has_held);
        self.held = numbers.encoder.held;
        self.ones = numbers.encoder.ones;
        self.events = numbers.encoder.events;
        self.has_failed = u8::from(numbers.encoder.has_failed);
    }

    /// Stores the size of the image, and the options.
    pub(super) fn choose(&mut self, size: Size, options: &Options<'_>)
        ensures version { self.new.version ≡ 1 }
        ensures next { self.new.next ≡ 1 }
        ensures width { self.new.width ≡ size.width }
        ensures height { self.new.height ≡ size.height }
        ensures settings { settings_kept self.new ≡ without_comment (settings_of options.now) }
        ensures learning { self.new.learning ≡ self.old.learning }
    {
        self.version = VERSION;
        self.next = ROWS;
        self.width = size.width;
        self.height = size.height;
        self.options = u32::from(options.options);
        self.stripe_rows = options.stripe_rows;
        self.most_offset = u32::from(options.most_offset);
        self.announced_height = options.announced.unwrap_or(0);
        self.announces_height = u8::from(options.announced.is_some());
        self.reset = u8::from(options.reset);
        self.spare = [0; 5];
        self.reserved = [0; 5];
    }

    /// The options except the comment, if they are valid.
    fn options(&self) -> Result<Options<'static>, Fault>
        ensures judged { MatchResult result (λ o. settings_of o ≡ settings_kept self.now)
            (λ fault. refusal_of self.now.options self.now.stripe_rows self.now.most_offset None
            ≡ Some fault) }
    {
        let announced = (self.announces_height != 0).then_some(self.announced_height);
        let reset = self.reset != 0;
        Options::new(
            self.options,
            self.stripe_rows,
            self.most_offset,
            announced,
            reset,
            None,
        )
    }

    /// The engine's encoder with the stored numbers, if there is one.
    pub(super) fn resume(&self) -> Option<RowEncoder>
        ensures { MatchOption result (IsOfNone self.now) (λ e. GoesOnFrom self.now e) }
    {
        if self.width == 0 || self.width > MOST_WIDTH || self.height == 0 {
            return None;
        }
        let size = Size {
            width: self.width,
            height: self.height,
        };
        match self.options() {
            Ok(options) => RowEncoder::resume(size, &options, &self.numbers()),
            Err(_) => None,
        }
    }

    /// The engine's encoder, or the status if nothing more is accepted.
    pub(super) fn engine(&self) -> Result<RowEncoder, u8>
        ensures { MatchResult result (λ e. AwaitsCall self.now e)
            (λ status. IsIdle self.now status) }
    {
        if self.version != VERSION {
            return Err(NOT_BEGUN);
        }
        if self.next == ENDED {
            return Err(NO_MORE_ROWS);
        }
        if self.next != ROWS || self.place >= 3 {
            return Err(NOT_BEGUN);
        }
        match self.resume() {
            Some(engine) => Ok(engine),
            None => Err(NOT_BEGUN),
        }
    }
}
