//! The two forms of a PBM.

/// `Raw` begins with P4, and a row is a whole number of bytes. `Plain` begins with P1, and a pixel is a digit.
#[derive(Clone, Copy, Debug, PartialEq, Eq)]
pub enum Form {
    Raw,
    Plain,
}
