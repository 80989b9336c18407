//! The offset that gives the next stripe the fewest bytes.

use pbm_core::Size;
use pbm_core::trial::Drip;
use raster_core::{Window, window_bytes};
use std::alloc::Global;
use std::test::Fail;
use t85_core::{Learning, Options, RowEncoder};

/// Two equal rows.
#[derive(Clone, Copy)]
enum Page {
    /// Eight black pixels.
    Black,
    /// 4,096 pixels with a period of 16, in which four pixels do not determine the next one.
    Striped,
}

impl Page {
    fn size(self) -> Size {
        match self {
            Page::Black => Size {
                width: 8,
                height: 2,
            },
            Page::Striped => Size {
                width: 4096,
                height: 2,
            },
        }
    }

    /// The first bytes of its rows.
    fn bytes(self, alloc: Global, count: usize) -> Result<Vec<u8>, Fail> {
        let mut bytes = Vec::new(alloc);
        for k in 0..count {
            bytes.push(match self {
                Page::Black => 0xff,
                Page::Striped => [0xa7, 0x3c][k % 2],
            })?;
        }
        Ok(bytes)
    }
}

/// A page, and the call for its first stripe.
#[derive(Drop)]
struct Case {
    name: &'static str,
    page: Page,
    stripe_rows: u32,
    most: u32,
    /// The number of bytes shown, as rows of the first stripe.
    shown: usize,
    best: Option<u8>,
}

static CASES: [Case; 8] = [
    Case {
        name: "a black row is too short for a move, which has 8 bytes",
        page: Page::Black,
        stripe_rows: 1,
        most: 3,
        shown: 1,
        best: Some(0),
    },
    Case {
        name: "the period is worth a move",
        page: Page::Striped,
        stripe_rows: 1,
        most: 127,
        shown: 512,
        best: Some(16),
    },
    Case {
        name: "two rows are one stripe",
        page: Page::Striped,
        stripe_rows: 2,
        most: 16,
        shown: 1024,
        best: Some(16),
    },
    Case {
        name: "there is no lag to choose",
        page: Page::Striped,
        stripe_rows: 1,
        most: 2,
        shown: 512,
        best: Some(0),
    },
    Case {
        name: "no rows",
        page: Page::Black,
        stripe_rows: 1,
        most: 3,
        shown: 0,
        best: None,
    },
    Case {
        name: "part of a row",
        page: Page::Striped,
        stripe_rows: 1,
        most: 127,
        shown: 511,
        best: None,
    },
    Case {
        name: "more rows than the stripe has",
        page: Page::Black,
        stripe_rows: 1,
        most: 3,
        shown: 2,
        best: None,
    },
    Case {
        name: "fewer rows than the stripe has",
        page: Page::Black,
        stripe_rows: 2,
        most: 3,
        shown: 1,
        best: None,
    },
];

/// The result of a case.
#[derive(Clone, Copy, PartialEq, Eq, Debug)]
enum Answer {
    /// A call before failed.
    Failed,
    Best(Option<u8>),
}

impl Case {
    /// Asks for the offset.
    fn ask(&self, alloc: Global) -> Result<Answer, Fail> {
        let options = match Options::new(0, self.stripe_rows, self.most, None, false, None) {
            Ok(options) => options,
            Err(_) => return Ok(Answer::Failed),
        };
        let size = self.page.size();
        let count = window_bytes(size.width);
        let mut memory = Vec::from_elem(alloc, 0u8, count)?;
        let mut scratch = Vec::from_elem(alloc, 0xffu8, count)?;
        let mut window = Window::over(memory.as_mut_slice(), size.width);
        let mut learning = Learning::new();
        let mut room = [0; 4096];
        let mut output = Drip::new(&mut room, 4096, None, true);
        let begun = RowEncoder::start(size, &options, &mut window, &mut learning, &mut output);
        let encoder = match begun {
            Ok(encoder) => encoder,
            Err(_) => return Ok(Answer::Failed),
        };
        let rows = self.page.bytes(alloc, self.shown)?;
        let best = encoder.best_offset(&rows, &window, &learning, scratch.as_mut_slice());
        Ok(Answer::Best(best))
    }
}

/// The offsets that were worked out by hand.
#[test]
fn best_offsets(rt: HostRuntime) -> Result<(), Fail> {
    for case in &CASES {
        let answer = case.ask(rt.alloc())?;
        assert!(rt;
            answer == Answer::Best(case.best),
            "{}: {answer:?}",
            case.name
        );
    }
    Ok(())
}
