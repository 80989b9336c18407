//! How rows are coded, and what is kept from row to row.

ghost use Rattle.std.specs.Prelude.{◌≤◌};

/// How the rows of an image are coded.
#[derive(Clone, Copy)]
pub struct Shape {
    /// The width in pixels.
    pub width: u32,
    /// Whether the two-line template is used (LRLTWO), instead of the three-line template.
    pub two_line: bool,
    /// Whether typical prediction is used (TPBON).
    pub typical: bool,
}

/// The state kept from row to row. At the top of an image and after a reset, the offset is 0 and the row before counts
/// as not typical.
#[derive(Clone, Copy)]
pub struct Kept {
    /// The position of the adaptive pixel: this far to the left in the row itself, or the nominal position if it is 0.
    /// At most 127.
    pub offset: u8,
    /// Whether the row before was typical.
    pub previous_typical: bool,
    ghost low: { offset ≤ 127 },
}
