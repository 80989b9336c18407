//! Encodes pixels, and decodes the same pixels.

ghost use Rattle.std.specs.Prelude.{◌≡◌, ◌≤◌, Bool, List, length, IfOk, OnOk};
ghost use Rattle.examples.specs.Coder.{code_for, end_of};

use crate::code::{Code, Stuffed};
use qm_core::{Context, Decoder, Encoder, Learned, MAX_EVENTS, laws};
use std::alloc::{AllocError, Global};

/// Encodes pixels and decodes them again, with equal context states.
pub fn pixels_again(
    alloc: Global,
    contexts: &[Context],
    pixels: &[bool],
    learned: &mut Learned,
    copy: &mut Learned,
) -> Result<Vec<bool>, AllocError>
    requires each { length pixels.now ≡ length contexts.now }
    requires few { length pixels.now ≤ MAX_EVENTS }
    requires same { copy.old ≡ learned.old }
    ensures again { IfOk result (λ again. again.items ≡ pixels.now) }
    ensures taught { OnOk result (copy.new ≡ learned.new) }
{
    let code = encode(alloc, contexts, pixels, learned)?;
    decode(alloc, contexts, code.as_slice(), copy)
}

/// The stuffed code of pixels in their contexts.
pub fn encode(
    alloc: Global,
    contexts: &[Context],
    pixels: &[bool],
    learned: &mut Learned,
) -> Result<Vec<u8>, AllocError>
    requires each { length pixels.now ≡ length contexts.now }
    requires few { length pixels.now ≤ MAX_EVENTS }
    ensures code { IfOk result (λ code. code.items ≡ code_for learned.old contexts.now pixels.now) }
    ensures taught { OnOk result (learned.new ≡
        (end_of learned.old contexts.now pixels.now).learned) }
{
    // Laws of the coder for the proof.
    laws::places();
    laws::codes();
    let mut code = Code {
        bytes: Vec::new(alloc),
        failures: 0,
    };
    let mut encoder = Encoder::start();
    for i in 0..pixels.len() {
        if encoder
            .put(learned, contexts[i], pixels[i], &mut code)
            .is_err()
        {
            return Err(AllocError);
        }
    }
    if encoder.finish(&mut code).is_err() {
        return Err(AllocError);
    }
    Ok(code.bytes)
}

/// The pixels of a code in their contexts.
pub fn decode(
    alloc: Global,
    contexts: &[Context],
    code: &[u8],
    learned: &mut Learned,
) -> Result<Vec<bool>, AllocError>
    ensures { IfOk result (λ again. (pixels : List Bool) → length pixels ≡ length contexts.now →
        code.now ≡ code_for learned.old contexts.now pixels →
        (again.items ≡ pixels) × (learned.new ≡ (end_of learned.old contexts.now pixels).learned)) }
{
    // Laws of the coder for the proof.
    laws::places();
    laws::codes();
    laws::inverse();
    laws::one_pixel();
    laws::pulls_join::<Stuffed<'_>>();
    let mut source = Stuffed { rest: code };
    let mut decoder = Decoder::start();
    let mut pixels = Vec::new(alloc);
    for cx in contexts {
        // A source that never fails does not stop a decoder.
        let Ok(pixel) = decoder.next(learned, *cx, &mut source) else {
            unreachable!()
        };
        pixels.push(pixel)?;
    }
    Ok(pixels)
}
