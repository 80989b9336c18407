//! The encoding options of a C caller.

ghost use Rattle.std.specs.Prelude.{◌≡◌, IfOk, MatchResult, None, Some};
ghost use Rattle.t85_core.specs.Options.{refusal_of, settings_of};
ghost use Rattle.libt85.specs.Encoded.{comment_chosen, settings_chosen};

use t85_core::{Fault, Options};

/// The encoding options of a C caller.
#[repr(C)]
#[derive(Clone, Copy)]
pub struct T85Options {
    /// The version of this struct: 1.
    pub version: u32,
    /// The options byte of the header, a sum of 64 for the two-line template, 32 for a variable height and 8 for
    /// typical prediction.
    pub options: u32,
    /// The rows per stripe.
    pub stripe_rows: u32,
    /// The greatest offset of the adaptive template pixel.
    pub most_offset: u32,
    /// A height to announce in the header. The image may be lower.
    pub announced_height: u32,
    /// Whether it is announced.
    pub announces_height: bool,
    /// Whether each stripe is coded independently of the ones before it, and ends in SDRST.
    pub reset: bool,
    /// Whether the stream contains the comment.
    pub has_comment: bool,
}

/// The options, if they are accepted.
pub fn accept<'a>(choice: &T85Options, comment: &'a [u8]) -> Result<Options<'a>, Fault>
    ensures judged { MatchResult result
        (λ _. refusal_of choice.now.options choice.now.stripe_rows choice.now.most_offset
        (comment_chosen choice.now comment.now) ≡ None)
        (λ fault. refusal_of choice.now.options choice.now.stripe_rows choice.now.most_offset
        (comment_chosen choice.now comment.now) ≡ Some fault) }
    ensures held { IfOk result (λ o. settings_of o ≡ settings_chosen choice.now comment.now) }
{
    let comment = choice.has_comment.then_some(comment);
    let announced = choice.announces_height.then_some(choice.announced_height);
    Options::new(
        choice.options,
        choice.stripe_rows,
        choice.most_offset,
        announced,
        choice.reset,
        comment,
    )
}
