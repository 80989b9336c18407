//! Images with wide rows, and with more bytes of rows and of code than a buffer has.

use crate::trial::Bytes::{Hex, Image};
use crate::trial::{Devices, Run, SMOOTH, leaves};
use program_core::LineFault;
use std::alloc::{AllocError, Global};
use std::process::Abort;
use std::test::Fail;

/// Bytes as hexadecimal digits, of which a part is repeated.
struct Long {
    head: &'static str,
    unit: &'static str,
    times: usize,
    tail: &'static str,
}

impl Long {
    /// The digits, repeated.
    fn digits(&self, alloc: Global, count: usize) -> Result<String, AllocError> {
        let middle = self.unit.repeat(alloc, self.times)?;
        format!(in alloc; "{}{middle}{}", self.head, self.tail)?.repeat(alloc, count)
    }
}

/// An image of equal rows, in stripes with equal codes: there is one stripe, or each ends in a reset. The code of a
/// stripe is the one that JBIG-KIT 2.1 writes for an image of that stripe alone.
struct Large {
    words: &'static [&'static str],
    size: &'static str,
    row: Long,
    rows: usize,
    header: &'static str,
    /// The code of a stripe and its end marker.
    entity: Long,
    stripes: usize,
}

static WIDE: [Large; 3] = [
    Large {
        words: &["pbmtojbg85", "-s", "1", "-r"],
        size: "1728 30",
        row: Long {
            head: "18EA7422133F",
            unit: "19",
            times: 207,
            tail: "00FFB4",
        },
        rows: 30,
        header: "00000100 000006C0 0000001E 00000001 00 0000 08",
        entity: Long {
            head: "BE31404DE8AF14024178B9187C",
            unit: "924924",
            times: 50,
            tail: "96516A FF03",
        },
        stripes: 30,
    },
    Large {
        words: &["pbmtojbg85", "-p", "0", "-s", "1", "-r"],
        size: "33000 2",
        row: Long {
            head: "DC1E88143417",
            unit: "1D",
            times: 4116,
            tail: "00B0A3",
        },
        rows: 2,
        header: "00000100 000080E8 00000002 00000001 00 0000 00",
        entity: Long {
            head: "E712CB054F1B8034A08F9EF519",
            unit: "5C2E170B85C2E170B8",
            times: 513,
            tail: "5C2E170B85C2E161895F FF03",
        },
        stripes: 2,
    },
    Large {
        words: &["pbmtojbg85", "-p", "72", "-s", "2", "-r"],
        size: "33000 4",
        row: Long {
            head: "DC1E88143417",
            unit: "1D",
            times: 4116,
            tail: "00B0A3",
        },
        rows: 4,
        header: "00000100 000080E8 00000004 00000002 00 0000 48",
        entity: Long {
            head: "F369DCCD40FB4A7F61CC904E",
            unit: "00",
            times: 19,
            tail: "788EDD9231B3CFF0 FF03",
        },
        stripes: 2,
    },
];

static WIDEST: [Large; 2] = [
    Large {
        words: &["pbmtojbg85"],
        size: "1048576 2",
        row: Long {
            head: "DC61492293E3",
            unit: "21",
            times: 131063,
            tail: "E0453D",
        },
        rows: 2,
        header: "00000100 00100000 00000002 00000080 00 0000 08",
        entity: Long {
            head: "F38BA055C82B8D4135D9E6611BBC0B56",
            unit: "318C6318C6",
            times: 16381,
            tail: "31ECE8591A FF02",
        },
        stripes: 1,
    },
    Large {
        words: &["pbmtojbg85", "-p", "64"],
        size: "1048576 1",
        row: Long {
            head: "DC61492293E3",
            unit: "21",
            times: 131063,
            tail: "E0453D",
        },
        rows: 1,
        header: "00000100 00100000 00000001 00000080 00 0000 40",
        entity: Long {
            head: "E6EDD16DBB81529190BAA1880FAF75111386ED946FF6EBE0",
            unit: "924924",
            times: 16377,
            tail: "924928AC04097A06F0 FF02",
        },
        stripes: 1,
    },
];

/// Whether the run, and the one that decodes its output, have the expected results, with reads and writes of this many
/// bytes.
fn goes_there_and_back(alloc: Global, run: Run<'_>, most: usize) -> Result<bool, LineFault> {
    let devices = Devices { most, ..SMOOTH };
    Ok(leaves(alloc, run, devices)? && leaves(alloc, run.back(), devices)?)
}

/// The same for each size.
fn goes_by_each_size(alloc: Global, run: Run<'_>) -> Result<bool, LineFault> {
    for most in [1, 4095, 4096, 4097] {
        if !goes_there_and_back(alloc, run, most)? {
            return Ok(false);
        }
    }
    Ok(true)
}

/// The run that encodes this image.
fn run_of<'a>(words: &'a [&'a str], size: &'a str, rows: &'a str, hex: &'a str) -> Run<'a> {
    Run {
        words,
        input: Image(size, rows),
        reads: 0,
        output: Hex(hex),
        fault: None,
    }
}

impl Large {
    /// Whether the image is encoded to its stream, and decoded from it.
    fn is_coded(&self, alloc: Global) -> Result<bool, LineFault> {
        let rows = self.row.digits(alloc, self.rows)?;
        let entities = self.entity.digits(alloc, self.stripes)?;
        let hex = format!(in alloc; "{}{entities}", self.header)?;
        goes_by_each_size(alloc, run_of(self.words, self.size, &rows, &hex))
    }
}

/// Asserts that each image is encoded and decoded.
fn all_are_coded(rt: &impl Abort, alloc: Global, images: &[Large]) -> Result<(), Fail> {
    for large in images {
        assert!(rt; large.is_coded(alloc)?, "{} {:?}", large.size, large.words);
    }
    Ok(())
}

/// Rows of 1,728 and of 33,000 pixels.
#[test]
fn codes_wide_images(rt: HostRuntime) -> Result<(), Fail> {
    all_are_coded(&rt, rt.alloc(), &WIDE)
}

/// The widest rows, of 1,048,576 pixels.
#[test]
fn codes_the_widest_images(rt: HostRuntime) -> Result<(), Fail> {
    all_are_coded(&rt, rt.alloc(), &WIDEST)
}
