//! Compares rows that are encoded one by one with `encode` of the whole image.

ghost use Rattle.std.specs.Prelude.{◌≡◌};
ghost use Rattle.raster_core.specs.Window.{width_of};

mod announced;
mod failing;

use crate::random::{Choices, Encoded, Image, Kinds, Random, encode_rows};
use pbm_core::trial::Drip;
use pbm_core::{PbmFault, Size, row_bytes};
use raster_core::{Window, window_bytes};
use std::alloc::Global;
use std::test::Fail;
use t85_core::{Fault, Learning, Options, RowEncoder};

/// The end of a run whose rows are encoded one by one.
#[derive(Clone, Copy, Debug, PartialEq, Eq)]
enum End {
    /// The stream is whole.
    Whole,
    /// No row is accepted, since the announced height is low.
    Low,
    /// A write of the head fails.
    HeadFails,
    /// A write of a row fails.
    RowFails,
    /// A write of the end fails.
    EndFails,
    /// A check failed.
    Wrong(&'static str),
}

/// The number of bytes written, increased.
fn with_written(output: &Drip<'_>, more: u64) -> u64 {
    more.saturating_add(output.written().len() as u64)
}

/// Rows that are encoded one by one, and the expected stream.
#[derive(Drop)]
struct Rows<'a> {
    /// The greatest number of rows, and their width.
    size: Size,
    options: &'a Options<'a>,
    rows: &'a [Vec<u8>],
    /// The output of `encode` for an image of exactly these rows.
    whole: &'a [u8],
    /// The number of bytes that `encode` writes if the input ends after each of the rows.
    fronts: &'a [usize],
}

impl Rows<'_> {
    /// Encodes the rows, and ends the stream.
    fn run(&self, window: &mut Window<'_>, output: &mut Drip<'_>) -> End
        requires { width_of window.old ≡ self.now.size.width }
    {
        let mut learning = Learning::new();
        let begun = RowEncoder::start(self.size, self.options, window, &mut learning, output);
        let mut encoder = match begun {
            Ok(encoder) => encoder,
            Err(Fault::Write) => return End::HeadFails,
            Err(Fault::AnnouncedLow) => return End::Low,
            Err(_) => return End::Wrong("the fault of the start"),
        };
        let mut left = self.size.height;
        'rows: for (row, front) in self.rows.iter().zip(self.fronts) {
            if encoder.left() != left || left == 0 || row.len() != row_bytes(self.size.width) {
                return End::Wrong("how many rows may come");
            }
            let most = with_written(output, encoder.most_row_bytes());
            match encoder.put_row(row, window, &mut learning, output) {
                Ok(()) => left -= 1,
                Err(_) => {
                    return self.closed(&mut encoder, window, &mut learning, output, End::RowFails);
                }
            }
            if with_written(output, 0) > most {
                return End::Wrong("the bytes that a row may write");
            }
            if encoder.may_finish() != (left == 0 || self.options.announced.is_some()) {
                return End::Wrong("whether the image may end");
            }
            if !self.stands(output.written(), *front) {
                return End::Wrong("the bytes after a row");
            }
        }
        if encoder.is_closed() || !encoder.may_finish() {
            return End::Wrong("whether the image may end");
        }
        let most = with_written(output, encoder.most_end_bytes());
        let end = match encoder.finish(window, &mut learning, output) {
            Ok(()) => End::Whole,
            Err(_) => End::EndFails,
        };
        if with_written(output, 0) > most {
            return End::Wrong("the bytes that an end may write");
        }
        self.closed(&mut encoder, window, &mut learning, output, end)
    }

    /// Whether these bytes are a prefix of the stream, with at least this many bytes.
    fn stands(&self, written: &[u8], least: usize) -> bool {
        self.whole.starts_with(written) && written.len() >= least
    }

    /// This end, if the encoder is closed, and each later call reports a failed write and writes nothing.
    fn closed(
        &self,
        encoder: &mut RowEncoder,
        window: &mut Window<'_>,
        learning: &mut Learning,
        output: &mut Drip<'_>,
        end: End,
    ) -> End
        requires size { encoder.old.size ≡ self.now.size }
        requires width { width_of window.old ≡ self.now.size.width }
    {
        let count = output.written().len();
        let row = match self.rows.first() {
            Some(row) => row,
            None => return End::Wrong("no row"),
        };
        if !encoder.is_closed() || row.len() != row_bytes(self.size.width) {
            return End::Wrong("an encoder that is not closed");
        }
        // A window may be used again once it is white.
        window.clear();
        let put = encoder.put_row(row, window, learning, output);
        window.clear();
        let finished = encoder.finish(window, learning, output);
        if put == Err(Fault::Write)
            && finished == Err(Fault::Write)
            && encoder.is_closed()
            && output.written().len() == count
        {
            end
        } else {
            End::Wrong("a call after the end")
        }
    }
}

/// An image, the height passed to its encoder, and the options of the stream.
#[derive(Drop)]
struct Case {
    image: Image,
    /// The number of the image's rows that are encoded.
    height: u32,
    choices: Choices,
}

/// A run of a case: its end, the output of `encode`, and the output of the row encoder.
#[derive(Drop)]
struct Ran {
    end: End,
    encoded: Encoded,
    written: Vec<u8>,
}

impl Case {
    /// A random image, all of whose rows are encoded.
    fn random(alloc: Global, random: &mut Random) -> Result<Case, Fail> {
        let image = Image::random(alloc, random)?;
        Ok(Case {
            height: image.size.height,
            choices: Choices::random(alloc, random)?,
            image,
        })
    }

    /// The rows that are encoded.
    fn rows(&self) -> &[Vec<u8>] {
        let all = self.image.rows.as_slice();
        all.get(..self.height as usize).unwrap_or(all)
    }

    /// The number of bytes that `encode` writes if the input ends after each of the rows; after the whole image, the
    /// number before the last row.
    fn fronts(&self, alloc: Global, options: &Options<'_>) -> Result<Vec<usize>, Fail> {
        let mut fronts = Vec::new(alloc);
        let mut front = 0;
        for count in 1..=self.rows().len() {
            let rows = self.image.rows.as_slice().get(..count).unwrap_or(&[]);
            let cut = encode_rows(alloc, self.image.size, rows, options)?;
            if cut.answer == Err(Fault::Pbm(PbmFault::Truncated)) {
                front = cut.bytes.len();
            }
            fronts.push(front)?;
        }
        Ok(fronts)
    }

    /// Encodes the rows with an output that accepts this many bytes per write, and fails the write of this number.
    fn run(&self, alloc: Global, most: usize, failing: Option<u64>) -> Result<Ran, Fail> {
        let options = self.choices.options()?;
        let size = Size {
            width: self.image.size.width,
            height: self.height.max(1),
        };
        let encoded = encode_rows(alloc, size, self.rows(), &options)?;
        let fronts = self.fronts(alloc, &options)?;
        let rows = Rows {
            size: self.image.size,
            options: &options,
            rows: self.rows(),
            whole: &encoded.bytes,
            fronts: &fronts,
        };
        let mut lent = Vec::from_elem(alloc, 0u8, window_bytes(size.width))?;
        let mut window = Window::over(lent.as_mut_slice(), size.width);
        let mut room = Vec::from_elem(alloc, 0u8, encoded.bytes.len().saturating_add(64))?;
        let mut output = Drip::new(room.as_mut_slice(), most.max(1), failing, true);
        let end = rows.run(&mut window, &mut output);
        let written = output.written().to_vec(alloc)?;
        Ok(Ran {
            end,
            encoded,
            written,
        })
    }
}

/// Rows of whole images give the stream of `encode`, and the output after each row is a prefix of it.
#[test]
fn rows_give_the_stream(rt: HostRuntime) -> Result<(), Fail> {
    let mut random = Random::new(1);
    let mut kinds = Kinds::NONE;
    for number in 0..4000u32 {
        let mut case = Case::random(rt.alloc(), &mut random)?;
        if random.is_one_in(2) {
            case.choices.announced = Some(random.height_from(case.height));
        }
        let ran = case.run(rt.alloc(), 3, None)?;
        assert!(rt; ran.encoded.answer == Ok(()), "case {number}");
        assert!(rt; ran.end == End::Whole, "case {number}: {:?}", ran.end);
        assert!(rt; ran.written == ran.encoded.bytes, "case {number}");
        kinds.count(&ran.written)?;
    }
    assert_eq!(rt; kinds.streams, 4000);
    assert!(rt; kinds.striped >= 1500 && kinds.moved >= 200, "{kinds:?}");
    assert!(rt;
        kinds.commented >= 1000 && kinds.lowered >= 1500,
        "{kinds:?}"
    );
    Ok(())
}
