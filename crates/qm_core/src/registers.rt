//! Coders between two pixels, as plain numbers.

/// A decoder between two pixels, as numbers that anyone may store.
#[repr(C)]
#[derive(Clone, Copy, PartialEq, Eq, Debug)]
pub struct DecoderRegisters {
    /// The distance of the code, a number from 0 up to 1, from the low end of the coding interval. The unit is 1 /
    /// 2^(23 + n) after n doublings.
    pub code: u32,
    /// The size of the coding interval in that unit: 0x40_0000 to 0x80_0000, a multiple of 128.
    pub span: u32,
    /// The number of bits read beyond the doublings: at most 23.
    pub bits: u32,
    /// Whether the source has returned `End`: 0 or 1.
    pub has_ended: u8,
}

/// An encoder between two pixels, as numbers that anyone may store.
#[derive(Clone, Copy, PartialEq, Eq, Debug)]
pub struct EncoderRegisters {
    /// The distance of the interval's low end, a number from 0 up to 1, from the bytes before it. The unit is 1 / 2^(23
    /// + n) after n doublings; the value is a multiple of 128.
    pub low: u64,
    /// The size of the coding interval in that unit: 0x40_0000 to 0x80_0000, a multiple of 128.
    pub span: u32,
    /// The number of bits of `low`, not counting the lowest seven: 16 to 39.
    pub bits: u32,
    /// The number of bytes 0 held back, before all others.
    pub zeros: u64,
    /// Whether a byte is held back that a carry may increment.
    pub has_held: bool,
    /// That byte, or 0.
    pub held: u8,
    /// The number of bytes 255 held back, after all others.
    pub ones: u64,
    /// The number of pixels encoded.
    pub events: u64,
    /// Whether the sink has failed.
    pub has_failed: bool,
}
