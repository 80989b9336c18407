//! The bytes of marker segments and end markers (T.82, 6.2).

/// The byte with which marker segments and end markers begin.
pub const ESCAPE: u8 = 0xff;

pub const STUFF: u8 = 0;

pub const SDNORM: u8 = 2;

pub const SDRST: u8 = 3;

pub const ABORT: u8 = 4;

pub const NEWLEN: u8 = 5;

pub const ATMOVE: u8 = 6;

pub const COMMENT: u8 = 7;
