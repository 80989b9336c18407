//! A choice without a branch.

ghost use Rattle.std.specs.Prelude.{◌≡◌, if◌then◌else◌};

/// One of two numbers, if no processor can predict which: the compiler makes a conditional selection of it.
#[inline(always)]
pub(crate) fn pick(is_first: bool, first: u32, second: u32) -> u32
    ensures { result ≡ (if is_first then first else second) }
{
    if is_first { first } else { second }
}
