//! Turns a PBM image into a JBIG1 image.
#![tactic(auto)]

use devices::ToWrite;
use program_core::pbmtojbg85::{NAME, job, open, run};
use program_core::{Places, end, refuse, words_of};
use std::process::ExitCode;

fn main(rt: HostRuntime) -> ExitCode {
    let words = match words_of(&rt, NAME, std::env::args(&rt)) {
        Ok(words) => words,
        Err(code) => return code,
    };
    let job = match job(rt.alloc(), words.as_slice()) {
        Ok(job) => job,
        Err(fault) => {
            let mut output = ToWrite::new(rt.stdout());
            let mut messages = ToWrite::new(rt.stderr());
            return end(refuse(NAME, fault, &mut output, &mut messages));
        }
    };
    let _places = Places::open(&rt);
    let mut files = match open(&rt, &job) {
        Ok(files) => files,
        Err(code) => return code,
    };
    let mut messages = ToWrite::new(rt.stderr());
    end(run(rt.alloc(), &job, &mut files, &mut messages))
}
