//! Runs the program that the arguments name.

use pbm_core::{Input, Output};
use program_core::{LineFault, jbgtopbm85, pbmtojbg85};
use std::alloc::Global;

/// A program, and a job for it.
#[derive(Drop)]
pub enum Program {
    Encoder(pbmtojbg85::Job),
    Decoder(jbgtopbm85::Job),
}

impl Program {
    /// The job for the arguments, for the program that the first of them names.
    pub fn of(alloc: Global, words: &[&str]) -> Result<Program, LineFault> {
        if words.first() == Some(&jbgtopbm85::NAME) {
            Ok(Program::Decoder(jbgtopbm85::job(alloc, words)?))
        } else {
            Ok(Program::Encoder(pbmtojbg85::job(alloc, words)?))
        }
    }

    pub fn name(&self) -> &'static str {
        match self {
            Program::Encoder(_) => pbmtojbg85::NAME,
            Program::Decoder(_) => jbgtopbm85::NAME,
        }
    }

    /// Runs it on these devices, and returns the exit status and the devices. Only the decoder has a second reading.
    pub fn run<R: Input, Second: Input, W: Output, M: Output>(
        &self,
        alloc: Global,
        input: R,
        again: Option<Second>,
        output: W,
        messages: &mut M,
    ) -> (u8, R, Option<Second>, W) {
        match self {
            Program::Encoder(job) => {
                let mut files = pbmtojbg85::Files { input, output };
                let status = pbmtojbg85::run(alloc, job, &mut files, messages);
                let pbmtojbg85::Files { input, output } = files;
                (status, input, again, output)
            }
            Program::Decoder(job) => {
                let mut files = jbgtopbm85::Files {
                    input,
                    again,
                    output,
                };
                let status = jbgtopbm85::run(alloc, job, &mut files, messages);
                (status, files.input, files.again, files.output)
            }
        }
    }

    /// The text for an input that ends too early.
    pub fn early_end(&self) -> &'static str {
        match self {
            Program::Encoder(_) => "PBM ends too early",
            Program::Decoder(_) => "input ends too early",
        }
    }
}
