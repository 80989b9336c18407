//! The options that a caller chooses for a stream.

ghost use Rattle.std.specs.Prelude.{false, ◌≡◌, ◌≤◌, ◌<◌, ◌%◌, ◌^◌, ◌/◌, Option, option_map, length};
ghost use Rattle.std.specs.Option.{option_map_or};

use crate::fault::Fault;
use crate::header::Header;
use pbm_core::Size;

/// Accepted options.
#[derive(Clone, Copy)]
pub struct Options<'a> {
    /// The options byte of the header: any of LRLTWO (0x40), VLENGTH (0x20) and TPBON (0x08).
    pub options: u8,
    /// The rows per stripe.
    pub stripe_rows: u32,
    /// The greatest offset of the adaptive template pixel.
    pub most_offset: u8,
    /// A height to announce in the header. The image may be lower.
    pub announced: Option<u32>,
    /// Whether each stripe is coded independently of the ones before it, and ends in SDRST.
    pub reset: bool,
    /// The comment before the first stripe.
    pub comment: Option<&'a [u8]>,
    ghost no_reserved_bit: { options < 128 },
    ghost no_low_bit: { options % 8 ≡ 0 },
    ghost no_layer_bit: { options / 16 % 2 ≡ 0 },
    ghost some_rows: { 1 ≤ stripe_rows },
    ghost not_too_many: { stripe_rows < 2 ^ 32 },
    ghost in_range: { most_offset ≤ 127 },
    ghost announced_fits: { option_map_or (λ n. n) announced 0 < 2 ^ 32 },
    ghost comment_fits: { option_map_or (λ c. length c.now) comment 0 < 2 ^ 32 },
}

impl<'a> Options<'a> {
    ghost use Rattle.std.specs.Prelude.{MatchResult, None, Some, IfOk, ◌&&◌, not, is_some};
    ghost use Rattle.t85_core.specs.Options.{refusal_of, settings_of, Holds, fields_of};
    ghost use Rattle.t85_core.specs.Jbg.{header_of, is_low, settings, written_options};
    ghost use Rattle.t85_core.specs.Coding.{has_bit};

    /// Checks the options byte `p`, the rows per stripe `s`, the greatest offset `m` and the length of the comment, in
    /// this order.
    pub fn new(
        p: u32,
        s: u32,
        m: u32,
        announced: Option<u32>,
        reset: bool,
        comment: Option<&'a [u8]>,
    ) -> Result<Options<'a>, Fault>
        ensures judged { MatchResult result
            (λ _. refusal_of p s m (option_map (λ c. c.now) comment.entry) ≡ None)
            (λ fault. refusal_of p s m (option_map (λ c. c.now) comment.entry) ≡ Some fault) }
        ensures held { IfOk result (Holds (settings p s m announced reset
            (option_map (λ c. c.now) comment.entry))) }
    {
        if p >= 0x80 || p % 8 != 0 || p / 16 % 2 != 0 {
            return Err(Fault::OptionBits);
        }
        if s == 0 {
            return Err(Fault::StripeZero);
        }
        if m > 127 {
            return Err(Fault::MoveLarge);
        }
        if let Some(text) = comment {
            if text.len() > 0xffff_ffff {
                return Err(Fault::CommentLong);
            }
        }
        Ok(Options {
            options: p as u8,
            stripe_rows: s,
            most_offset: m as u8,
            announced,
            reset,
            comment,
        })
    }

    /// Whether a height is announced that the image exceeds.
    pub(crate) fn is_low(&self, size: Size) -> bool
        ensures { result ≡ is_low (settings_of self.now) size.height }
    {
        self.announced.unwrap_or(size.height) < size.height
    }

    /// The header of the stream of an image that is not higher than announced.
    pub(crate) fn header(&self, size: Size) -> Header
        requires { is_low (settings_of self.now) size.height ≡ false }
        ensures { fields_of result ≡ header_of (settings_of self.now) size.width size.height }
    {
        Header {
            xd: size.width,
            yd: self.announced.unwrap_or(size.height),
            l0: self.stripe_rows,
            mx: self.most_offset,
            options: self.written(),
        }
    }

    /// The options byte as written: with VLENGTH if a height is announced.
    fn written(&self) -> u8
        ensures is { result ≡ written_options (settings_of self.now) }
        ensures small { result < 128 }
        ensures low { result % 8 ≡ 0 }
    {
        self.options + 0x20 * u8::from(self.adds_bit())
    }

    /// Whether VLENGTH is added because a height is announced.
    fn adds_bit(&self) -> bool
        ensures { result ≡ (is_some self.now.announced && not (has_bit self.now.options 5)) }
    {
        self.announced.is_some() && self.options & 0x20 == 0
    }
}
