//! Lists the parts of a stream for a C caller.

ghost use Rattle.std.specs.Prelude.{◌≡◌};
ghost use Rattle.libt85.specs.Parts.{PartTold, IsTold, kind_number, walk_in};

use crate::status::{NO_MORE_PARTS, OTHER_VERSION};
use t85_core::{Fault, Found, PartKind, PartWalk};

/// The version of `T85Part`.
const VERSION: u32 = 1;

/// A part of a stream, and the state of the walk through the stream.
#[repr(C)]
#[derive(Clone, Copy)]
pub struct T85Part {
    /// The version of this struct: 1.
    pub version: u32,
    /// The kind of the part: 0 the header, 1 a comment, 2 a move of the adaptive template pixel, 3 a new height, 4 a
    /// stripe data entity.
    pub kind: u32,
    /// The offset of its first byte from the beginning of the stream.
    pub offset: usize,
    /// Its length in bytes.
    pub len: usize,
    /// The number of stripe data entities before it.
    pub stripe: u32,
    /// The number of stripe data entities that the walk has passed.
    pub entities: u32,
    /// The height that a NEWLEN gave, or 0.
    pub late_height: u32,
    /// Not 0 if the stripe has had its move.
    pub has_move: u32,
    /// Not 0 if a height follows the last stripe data entity, or has followed it.
    pub is_at_height: u32,
    /// Reserved.
    pub reserved: u32,
    /// The number of bytes that the walk has passed.
    pub passed: usize,
}

/// Describes the next part of a stream in `part`, and moves past it. Before the first call, `part` is all zeros except
/// its version.
///
/// Returns 0; 52 if there are no more parts (then `offset` is the length of the stream, including an empty stripe data
/// entity after a height that came last); the number of the error if the next part is broken, and then `offset` and
/// `stripe` say where; or 50 if the struct has another version, and then it is unchanged.
#[unsafe(no_mangle)]
pub extern "C" fn t85_next_part(stream: &[u8], part: &mut T85Part) -> u8
    ensures { PartTold stream.now part.old part.new result }
{
    if part.version != VERSION {
        return OTHER_VERSION;
    }
    let mut walk = part.walk();
    let found = walk.next(stream);
    part.keep(walk);
    part.report(found)
}

fn number_of_kind(kind: PartKind) -> u32
    ensures { result ≡ kind_number kind }
{
    match kind {
        PartKind::Header => 0,
        PartKind::Comment => 1,
        PartKind::Move => 2,
        PartKind::NewHeight => 3,
        PartKind::DataEntity => 4,
    }
}

impl T85Part {
    /// The walk in this state.
    fn walk(&self) -> PartWalk
        ensures { result ≡ walk_in self.now }
    {
        PartWalk {
            offset: self.passed,
            entities: self.entities,
            late_height: self.late_height,
            moved: self.has_move != 0,
            at_height: self.is_at_height != 0,
        }
    }

    /// Stores the state of the walk.
    fn keep(&mut self, walk: PartWalk)
        ensures walk { walk_in self.new ≡ walk }
        ensures version { self.new.version ≡ self.old.version }
    {
        self.passed = walk.offset;
        self.entities = walk.entities;
        self.late_height = walk.late_height;
        self.has_move = u32::from(walk.moved);
        self.is_at_height = u32::from(walk.at_height);
    }

    /// Stores what was found, and returns the status.
    fn report(&mut self, found: Found) -> u8
        ensures told { IsTold found self.new result }
        ensures walk { walk_in self.new ≡ walk_in self.old }
        ensures version { self.new.version ≡ self.old.version }
    {
        match found {
            Found::Part(part) => {
                self.kind = number_of_kind(part.kind);
                self.offset = part.offset;
                self.len = part.len;
                self.stripe = part.stripe;
                0
            }
            Found::End { len } => {
                self.offset = len;
                self.len = 0;
                self.stripe = self.entities;
                NO_MORE_PARTS
            }
            Found::Broken {
                fault,
                offset,
                stripe,
            } => {
                self.offset = offset;
                self.len = 0;
                self.stripe = stripe;
                fault.number()
            }
        }
    }
}
