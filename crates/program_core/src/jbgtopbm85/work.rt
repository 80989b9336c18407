//! The job that the arguments ask for.

/// The job that the arguments ask for.
#[derive(Debug, Drop)]
pub struct Job {
    /// Whether to write the line about the stream instead of its image.
    pub info: bool,
    /// The greatest number of rows that an image may have; unlimited if `None`.
    pub max_rows: Option<u32>,
    /// The input file; standard input if `None` or `-`.
    pub input: Option<String>,
    /// The output file; standard output if `None` or `-`.
    pub output: Option<String>,
}
