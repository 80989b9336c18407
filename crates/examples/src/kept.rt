//! A decoder in pieces that is stored as numbers between calls. It consumes all bytes.

ghost use Rattle.std.specs.Prelude.{◌≡◌, ◌<◌, ◌*◌, [], ℕ, List, None, IfSome, length};
ghost use Rattle.std.specs.Int.{div_ceil};
ghost use Rattle.t85_core.specs.Pieces.{is_last_piece};
ghost use Rattle.examples.specs.Kept.{IsKept, KeptOn, between_calls};

use qm_core::Learned;
use raster_core::Window;
use t85_core::{Header, HeldBytes, More, PieceDecoder, PieceNumbers, Progress};

/// The state of a decoder between calls, without its header, the memory of its window and the contexts.
#[derive(Clone, Copy)]
pub struct KeptDecoder {
    pub numbers: PieceNumbers,
    /// The bytes that it has consumed and not decoded yet.
    pub held: HeldBytes,
    /// The place in memory of the row that was decoded last.
    pub place: u8,
}

/// The state before the first byte after the header. Makes the memory white, and resets the contexts.
pub fn first_kept(header: Header, memory: &mut [u8], learned: &mut Learned) -> KeptDecoder
    requires { length memory.old ≡ 3 * div_ceil header.xd 8 }
    ensures kept { IsKept (between_calls header result memory.new learned.new) [] [] }
    ensures place { result.place < 3 }
{
    let mut window = Window::over(memory, header.xd);
    let decoder = PieceDecoder::start(header, &mut window, learned);
    KeptDecoder {
        numbers: decoder.numbers(),
        held: HeldBytes::none(),
        place: window.place(),
    }
}

/// Continues with a piece, up to the next row, or as far as it goes. The memory then has the row. Returns none, and
/// changes nothing, if the numbers are those of no decoder.
pub fn next_of_kept(
    header: Header,
    kept: &mut KeptDecoder,
    memory: &mut [u8],
    learned: &mut Learned,
    piece: &[u8],
    more: More,
) -> Option<Progress>
    requires long { length memory.old ≡ 3 * div_ceil header.xd 8 }
    requires place { kept.old.place < 3 }
    ensures place { kept.new.place < 3 }
    ensures on { IfSome result (KeptOn (between_calls header kept.old memory.old learned.old)
        (between_calls header kept.new memory.new learned.new) piece.now (is_last_piece more)) }
    ensures none { result ≡ None → (kept.new ≡ kept.old) × ((text out : List ℕ) →
        IsKept (between_calls header kept.old memory.old learned.old) text out → ⊥) }
{
    let mut decoder = PieceDecoder::resume(header, &kept.numbers)?;
    let mut window = Window::resume(memory, header.xd, kept.place);
    let mut held = kept.held;
    let progress = decoder.feed(&mut window, learned, &mut held, piece, more);
    *kept = KeptDecoder {
        numbers: decoder.numbers(),
        held,
        place: window.place(),
    };
    Some(progress)
}
