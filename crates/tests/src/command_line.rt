//! Command lines of both programs.

use crate::trial::Program;
use program_core::{LineFault, jbgtopbm85, pbmtojbg85};
use std::alloc::Global;
use t85_core::Fault;

/// Arguments of the encoder, and the values they stand for.
struct Encode {
    words: &'static [&'static str],
    /// The options byte, the rows per stripe, and the greatest offset.
    numbers: (u32, u32, u32),
    announced: Option<u32>,
    reset: bool,
    comment: Option<&'static str>,
    input: Option<&'static str>,
    output: Option<&'static str>,
}

static ENCODE: [Encode; 2] = [
    Encode {
        words: &[
            "pbmtojbg85",
            "-p64",
            "-Y9",
            "-s",
            "1",
            "-C",
            "",
            "-rm",
            "127",
            "a.pbm",
        ],
        numbers: (64, 1, 127),
        announced: Some(9),
        reset: true,
        comment: Some(""),
        input: Some("a.pbm"),
        output: None,
    },
    Encode {
        words: &["pbmtojbg85"],
        numbers: (8, 128, 0),
        announced: None,
        reset: false,
        comment: None,
        input: None,
        output: None,
    },
];

impl Encode {
    fn is(&self, job: &pbmtojbg85::Job) -> bool {
        (job.p, job.s, job.m) == self.numbers
            && job.announced == self.announced
            && job.reset == self.reset
            && job.comment.as_deref() == self.comment
            && job.input.as_deref() == self.input
            && job.output.as_deref() == self.output
    }

    /// Whether the arguments are accepted with these values.
    fn is_read(&self, alloc: Global) -> bool {
        match pbmtojbg85::job(alloc, self.words) {
            Ok(job) => self.is(&job),
            Err(_) => false,
        }
    }
}

#[test]
fn reads_words_of_the_encoder(rt: HostRuntime) {
    for asked in &ENCODE {
        assert!(rt; asked.is_read(rt.alloc()), "{:?}", asked.words);
    }
}

/// Arguments of the decoder, and the values they stand for.
struct Decode {
    words: &'static [&'static str],
    info: bool,
    max_rows: Option<u32>,
    input: Option<&'static str>,
    output: Option<&'static str>,
}

static DECODE: [Decode; 4] = [
    Decode {
        words: &["jbgtopbm85", "--info", "a.jbg", "-"],
        info: true,
        max_rows: None,
        input: Some("a.jbg"),
        output: Some("-"),
    },
    Decode {
        words: &["jbgtopbm85", "--max-rows", "0", "a.jbg"],
        info: false,
        max_rows: Some(0),
        input: Some("a.jbg"),
        output: None,
    },
    Decode {
        words: &["jbgtopbm85", "--max-rows=4294967295", "--info"],
        info: true,
        max_rows: Some(4294967295),
        input: None,
        output: None,
    },
    Decode {
        words: &["jbgtopbm85"],
        info: false,
        max_rows: None,
        input: None,
        output: None,
    },
];

impl Decode {
    fn is(&self, job: &jbgtopbm85::Job) -> bool {
        job.info == self.info
            && job.max_rows == self.max_rows
            && job.input.as_deref() == self.input
            && job.output.as_deref() == self.output
    }

    /// Whether the arguments are accepted with these values.
    fn is_read(&self, alloc: Global) -> bool {
        match jbgtopbm85::job(alloc, self.words) {
            Ok(job) => self.is(&job),
            Err(_) => false,
        }
    }
}

#[test]
fn reads_words_of_the_decoder(rt: HostRuntime) {
    for asked in &DECODE {
        assert!(rt; asked.is_read(rt.alloc()), "{:?}", asked.words);
    }
}

/// Arguments, and the status with which they are rejected.
static REFUSED: [(&[&str], u8); 24] = [
    (&["jbgtopbm85", "-h"], 0),
    (&["jbgtopbm85", "--help"], 0),
    (&["jbgtopbm85", "-V"], 0),
    (&["jbgtopbm85", "--version"], 0),
    (&["jbgtopbm85", "-x"], 2),
    (&["jbgtopbm85", "--info=1"], 2),
    (&["jbgtopbm85", "--info", "--info"], 2),
    (&["jbgtopbm85", "--max-rows"], 2),
    (&["jbgtopbm85", "--max-rows", "x"], 2),
    (&["jbgtopbm85", "--max-rows", "4294967296"], 2),
    (&["pbmtojbg85", "-h"], 0),
    (&["pbmtojbg85", "--help"], 0),
    (&["pbmtojbg85", "-V"], 0),
    (&["pbmtojbg85", "--version"], 0),
    (&["pbmtojbg85", "-x"], 2),
    (&["pbmtojbg85", "-Y"], 2),
    (&["pbmtojbg85", "-Y4294967296"], 2),
    (&["pbmtojbg85", "-p"], 2),
    (&["pbmtojbg85", "-p1"], 2),
    (&["pbmtojbg85", "-s0"], 2),
    (&["pbmtojbg85", "-m128"], 2),
    (&["pbmtojbg85", "-s4294967296"], 2),
    (&["pbmtojbg85", "-sx"], 2),
    (&["pbmtojbg85", "-rr"], 2),
];

/// Whether the arguments are rejected with this status.
fn refuses(alloc: Global, words: &[&str], status: u8) -> bool {
    match Program::of(alloc, words) {
        Ok(_) => false,
        Err(fault) => fault.status() == status,
    }
}

fn status_of(fault: Fault) -> u8 {
    LineFault::Fault(fault).status()
}

#[test]
fn refuses_words(rt: HostRuntime) {
    for (words, status) in &REFUSED {
        assert!(rt; refuses(rt.alloc(), words, *status), "{words:?}");
    }
    assert!(rt; status_of(Fault::OutOfMemory) == 1);
}

/// Options that are rejected, in the order of the checks.
static OPTIONS: [([&str; 4], Fault); 5] = [
    (["pbmtojbg85", "-p1", "-s0", "-m128"], Fault::OptionBits),
    (["pbmtojbg85", "-p16", "-s1", "-m0"], Fault::OptionBits),
    (["pbmtojbg85", "-p128", "-s1", "-m0"], Fault::OptionBits),
    (["pbmtojbg85", "-p72", "-s0", "-m128"], Fault::StripeZero),
    (["pbmtojbg85", "-p72", "-s1", "-m128"], Fault::MoveLarge),
];

/// Whether the arguments are rejected with this error.
fn refuses_by(alloc: Global, words: &[&str], fault: Fault) -> bool {
    matches!(Program::of(alloc, words), Err(LineFault::Fault(told)) if told == fault)
}

#[test]
fn refuses_options(rt: HostRuntime) {
    for (words, fault) in &OPTIONS {
        assert!(rt; refuses_by(rt.alloc(), words, *fault), "{fault}");
    }
}
