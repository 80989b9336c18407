//! Rows whose code arrives in parts, with a decoder that is rebuilt from its numbers for each part.

use crate::rows::model::{code_of_model, row_of};
use crate::rows::{Course, Given, is_row, over_8, shape};
use qm_core::{CodeBytes, Decoder, DecoderRegisters, Pulled, Stop};
use raster_core::{RowPlace, RowPlaceNumbers, Window, go_on_row, window_bytes};
use std::process::Abort;
use std::test::Fail;

/// A source that fails before each byte but the first, and then returns it.
#[derive(Drop)]
struct Halting<'a> {
    given: Given<'a>,
    is_due: bool,
    failed: u64,
}

impl CodeBytes for Halting<'_> {
    ghost gives = { λ _ _ _. Unit {0} };

    ghost failed = { λ s. s.failed };

    ghost left = { λ _. 0 };

    fn pull(&mut self) -> Pulled {
        self.is_due = !self.is_due;
        let answer = if self.is_due {
            self.given.pull()
        } else {
            Pulled::Fault
        };
        if let Pulled::Fault = answer {
            self.failed = self.failed.wrapping_add(1);
        }
        answer
    }

    fn failures(&self) -> u64 {
        self.failed
    }
}

/// The state of a row's decoder, as numbers.
#[derive(Clone, Copy, PartialEq, Debug)]
struct Numbers {
    decoder: DecoderRegisters,
    place: RowPlaceNumbers,
}

/// The numbers before a row.
fn before_row() -> Numbers {
    Numbers {
        decoder: Decoder::start().registers(),
        place: RowPlace::start().numbers(),
    }
}

impl Course {
    /// Continues with the current row of a window, from the numbers, and replaces them by those of the new state.
    fn go_on<S: CodeBytes>(
        &mut self,
        rt: &impl Abort,
        window: &mut Window,
        numbers: &mut Numbers,
        source: &mut S,
    ) -> Option<Result<(), Stop>> {
        let mut decoder = Decoder::from_registers(numbers.decoder)?;
        let mut place = RowPlace::from_numbers(numbers.place)?;
        let Course {
            shape,
            kept,
            learned,
        } = self;
        assert!(rt; window.width() == shape.width);
        assert!(rt; numbers.place.done < shape.width && source.failures() < 1_000_000);
        let answer = go_on_row(
            *shape,
            &mut place,
            kept,
            window,
            learned,
            &mut decoder,
            source,
        );
        numbers.decoder = decoder.registers();
        numbers.place = place.numbers();
        Some(answer)
    }
}

/// Five pixels of the second row are determined: white, white, black, black and white; the place is rebuilt from its
/// numbers.
#[test]
fn numbers_of_a_place_by_hand(rt: HostRuntime) {
    let mut bytes = [0; 3];
    let mut window = over_8(&mut bytes);
    let mut course = Course::new(shape(8, false, false), 0);
    let mut numbers = before_row();
    let mut source = Given::new(&[0xf0, 0x00, 0x00], false);
    let first = course.go_on(&rt, &mut window, &mut numbers, &mut source);
    assert!(rt; first == Some(Ok(())) && numbers.place == before_row().place);
    window.turn();
    let second = course.go_on(&rt, &mut window, &mut numbers, &mut source);
    let place = RowPlaceNumbers {
        is_begun: 1,
        done: 5,
        past_high: 0,
        past_low: 0b00110,
    };
    assert!(rt; second == Some(Err(Stop)) && numbers.place == place);
    let mut rest = Given::new(&[0x00], false);
    let third = course.go_on(&rt, &mut window, &mut numbers, &mut rest);
    assert!(rt; third == Some(Ok(())) && is_row(&window, 0, &[0x32]));
}

#[test]
fn a_place_of_any_numbers(rt: HostRuntime) {
    for &(past_high, past_low) in &[(0, 1), (1, 0), (u64::MAX, 0), (0, u64::MAX), (u64::MAX, 7)] {
        let numbers = RowPlaceNumbers {
            is_begun: u8::from(past_low == 1),
            done: u32::MAX,
            past_high,
            past_low,
        };
        assert!(rt; has_numbers(numbers));
        assert!(rt;
            !has_numbers(RowPlaceNumbers {
                is_begun: 2,
                ..numbers
            })
        );
    }
}

/// Whether a place has these numbers.
fn has_numbers(numbers: RowPlaceNumbers) -> bool {
    match RowPlace::from_numbers(numbers) {
        Some(place) => place.numbers() == numbers,
        None => false,
    }
}

/// Whether a code gives the current row of a window, and in how many steps, each of which begins with numbers.
fn goes_on(
    rt: &impl Abort,
    course: &mut Course,
    window: &mut Window,
    numbers: &mut Numbers,
    source: &mut Halting,
) -> (bool, u32) {
    for steps in 1..1000u32 {
        match course.go_on(rt, window, numbers, source) {
            Some(Ok(())) => return (true, steps),
            Some(Err(Stop)) => {}
            None => return (false, steps),
        }
    }
    (false, 0)
}

/// Rows whose code arrives byte by byte, with context pixels far behind the current one.
#[test]
fn rows_go_on_from_their_numbers(rt: HostRuntime) -> Result<(), Fail> {
    let alloc = rt.alloc();
    let shape = shape(403, false, false);
    let first = row_of(alloc, 403, 1)?;
    let second = row_of(alloc, 403, 2)?;
    let third = row_of(alloc, 403, 3)?;
    let rows = [first.as_slice(), second.as_slice(), third.as_slice()];
    let code = code_of_model(&rt, alloc, shape, 120, rows);
    let mut bytes = vec![in alloc; 0u8; window_bytes(403)]?;
    let mut window = Window::over(bytes.as_mut_slice(), 403);
    let mut course = Course::new(shape, 120);
    let mut numbers = before_row();
    let mut source = Halting {
        given: Given::new(code.as_slice(), true),
        is_due: false,
        failed: 0,
    };
    for row in rows {
        window.turn();
        let (is_done, steps) = goes_on(&rt, &mut course, &mut window, &mut numbers, &mut source);
        assert!(rt; is_done && steps > 40 && is_row(&window, 0, row), "{steps}");
    }
    Ok(())
}
