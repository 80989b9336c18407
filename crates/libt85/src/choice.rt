//! Chooses the offset of the adaptive template pixel for the next stripe as JBIG-KIT does, for a C caller.

ghost use Rattle.std.specs.Prelude.{◌≡◌, [], true, MatchResult, IfOk, None, Some};
ghost use Rattle.raster_core.specs.Counting.{HasCounted, counting_of, is_reset};
ghost use Rattle.libt85.specs.Choice.{ChoosesOffset, CountsPassed, PassesRow, StartsChoice, choice_offset_refusal, choice_refusal, choice_row_refusal, counting_asked, may_be_named};

use crate::encoding::{MOST_WIDTH, VERSION as OPTIONS_VERSION};
use crate::options::{T85Options, accept};
use crate::status::{NOT_BEGUN, OTHER_VERSION, SHORT_ROW, TOO_WIDE, ZERO_SIZE};
use pbm_core::laws::masks;
use pbm_core::row_bytes;
use raster_core::{Choice, Shape};
use t85_core::Fault;

/// The version of `T85Choice`.
const VERSION: u32 = 1;

/// The size of `T85Choice` in bytes.
const SIZE: usize = 528;

/// A choice of offsets, which the caller owns. A call is safe whatever bytes it contains.
#[repr(C)]
#[derive(Drop)]
pub struct T85Choice {
    pub version: u32,
    pub choice: Choice,
}

/// Starts a choice of offsets for an image of this width, encoded with these options. `size` is the size of the
/// caller's struct.
///
/// Returns 0, or the first of these errors that applies, with nothing changed: 50 if the struct has another size, or the
/// options another version; 20, 21 or 22 if the options are invalid; 33 if the width is 0; 34 if it is above 1048576.
#[unsafe(no_mangle)]
pub extern "C" fn t85_choice_start(
    choice: &mut T85Choice,
    size: usize,
    width: u32,
    options: &T85Options,
) -> u8
    ensures { StartsChoice size width options.now choice.old choice.new result }
{
    match judge_choice(size, width, options) {
        Ok(started) => {
            choice.version = VERSION;
            choice.choice = started;
            0
        }
        Err(status) => status,
    }
}

/// Counts the next row of a stripe. `above` is the row above it: it is empty, or white, above the first row of an image,
/// and above the first row of each stripe if the options end the stripe before in a reset. Padding bits are ignored.
///
/// Returns 0, or the first of these errors that applies, with nothing changed: 53 if the choice was not started; 55 if
/// `row` is shorter than the width, or `above` is and is not empty.
#[unsafe(no_mangle)]
pub extern "C" fn t85_choice_row(choice: &mut T85Choice, row: &[u8], above: &[u8]) -> u8
    ensures { PassesRow row.now above.now choice.old choice.new result }
{
    match choice.judge_row(row.len(), above.len()) {
        Ok(()) => {
            choice.count(row, above);
            0
        }
        Err(status) => status,
    }
}

/// Ends the counting of a stripe, which was coded at the offset `current`, and begins that of the next. `offset` is the
/// offset to which JBIG-KIT would move for the next stripe, or that at which it would stay; the caller may name it with
/// `t85_encode_offset`.
///
/// Returns 0, or the first of these errors that applies, with nothing changed: 53 if the choice was not started; 22 if
/// no stripe can have been coded at `current` with the options.
#[unsafe(no_mangle)]
pub extern "C" fn t85_choice_offset(choice: &mut T85Choice, current: u8, offset: &mut u8) -> u8
    ensures { ChoosesOffset current offset.old choice.old choice.new offset.new result }
{
    match choice.judge_offset(current) {
        Ok(()) => {
            *offset = choice.choice.offset(current);
            choice.choice.restart();
            0
        }
        Err(status) => status,
    }
}

impl T85Choice {
    /// The status of the first error for rows of these lengths.
    fn judge_row(&self, row: usize, above: usize) -> Result<(), u8>
        ensures { MatchResult result (λ _. choice_row_refusal self.now row above ≡ None)
            (λ status. choice_row_refusal self.now row above ≡ Some status) }
    {
        if self.version != VERSION {
            return Err(NOT_BEGUN);
        }
        let needed = row_bytes(self.choice.width());
        if row < needed || above != 0 && above < needed {
            return Err(SHORT_ROW);
        }
        Ok(())
    }

    /// The status of the first error for a stripe that was coded at this offset.
    fn judge_offset(&self, current: u8) -> Result<(), u8>
        ensures judged { MatchResult result (λ _. choice_offset_refusal self.now current ≡ None)
            (λ status. choice_offset_refusal self.now current ≡ Some status) }
        ensures offered { IfOk result (λ _. may_be_named self.now current ≡ true) }
    {
        if self.version != VERSION {
            return Err(NOT_BEGUN);
        }
        if !self.choice.offers(current) {
            return Err(Fault::MoveLarge.number());
        }
        Ok(())
    }

    /// Counts a row.
    fn count(&mut self, row: &[u8], above: &[u8])
        requires { self.old.version ≡ 1 }
        ensures { CountsPassed row.now above.now self.old self.new }
    {
        // The proof uses these laws about packed rows.
        masks();
        self.choice.count_row(row, above);
    }
}

/// The choice that is started, or the status of the first error.
fn judge_choice(size: usize, width: u32, options: &T85Options) -> Result<Choice, u8>
    ensures judged { MatchResult result (λ _. choice_refusal size width options.now ≡ None)
        (λ status. choice_refusal size width options.now ≡ Some status) }
    ensures counting { IfOk result (λ c. counting_of c ≡ counting_asked options.now width) }
    ensures reset { IfOk result (λ c. is_reset c ≡ options.now.reset) }
    ensures counted { IfOk result (λ c. HasCounted c []) }
{
    if size != SIZE || options.version != OPTIONS_VERSION {
        return Err(OTHER_VERSION);
    }
    let accepted = match accept(options, &[]) {
        Ok(accepted) => accepted,
        Err(fault) => return Err(fault.number()),
    };
    if width == 0 {
        return Err(ZERO_SIZE);
    }
    if width > MOST_WIDTH {
        return Err(TOO_WIDE);
    }
    let shape = Shape {
        width,
        two_line: accepted.options & 0x40 != 0,
        typical: accepted.options & 0x08 != 0,
    };
    Ok(Choice::new(shape, accepted.most_offset, options.reset))
}

const _: () = prove!(std::mem::size_of::<T85Choice>() == SIZE);
