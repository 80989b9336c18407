//! Steps from part to part of a stream.

ghost use Rattle.std.specs.Prelude.{◌≡◌, ◌≤◌, ◌<◌, ◌+◌, ◌-◌, ◌^◌, Some, None, length, true};
ghost use Rattle.t85_core.specs.Options.{fields_of};
ghost use Rattle.t85_core.specs.Parts.{Passed, start_walk, IsBehind, TellsNext, TellsOfAny};
ghost use Rattle.t85_core.specs.declared.parts.Found.TheVariants as found;
ghost use Rattle.t85_core.specs.Private.PartSteps.{CanPass, kind_of, part_told, walk_behind, header_part, header_walk, height_told, is_given, TellsThere, TellsInStripe, TellsBehind, TellsBefore, SeesHeight, TailIs};

use crate::header::Header;
use crate::height::look;
use crate::parts::{
    Found, HEADER_LEN, Part, PartKind, PartWalk, Taken, kind_of, read_before_height, read_header,
    read_part, rest_of,
};
use crate::pieces::piece::Piece;
use crate::segments::{Place, marker_at};

impl PartWalk {
    /// A walk before the first byte of a stream.
    pub fn start() -> PartWalk
        ensures { result ≡ start_walk }
    {
        PartWalk {
            offset: 0,
            entities: 0,
            late_height: 0,
            moved: false,
            at_height: false,
        }
    }

    /// Returns the next part of a stream that is complete in memory, beginning with its header, and moves past it. If
    /// there is none, because all parts have been returned or the next one is broken, the walk does not move.
    ///
    /// The errors are those of `summarize`, except a failed read. A NEWLEN after the last stripe data entity, and the
    /// comments before it, are parts; nothing else after that entity is. Arbitrary numbers are safe; the results are
    /// correct for a walk that began with `start` and continued in the same stream.
    pub fn next(&mut self, stream: &[u8]) -> Found
        ensures told { (from : Passed) → IsBehind stream.now self.old from →
            TellsNext stream.now self.old self.new from result }
        ensures any { TellsOfAny stream.now self.old self.new result }
    {
        let header = match read_header(stream) {
            Ok(header) => header,
            Err(fault) => {
                return Found::Broken {
                    fault,
                    offset: 0,
                    stripe: 0,
                };
            }
        };
        if self.offset == 0 {
            return self.pass_header();
        }
        self.next_in_body(&header, stream)
    }

    /// Returns the next part after the header.
    fn next_in_body(&mut self, header: &Header, stream: &[u8]) -> Found
        ensures told { TellsThere (fields_of header.now) stream.now self.old self.new result }
        ensures any { TellsOfAny stream.now self.old self.new result }
    {
        let count = self.height_in_use(header).div_ceil(header.l0);
        if self.entities < count {
            self.next_in_stripe(header, stream)
        } else {
            self.next_behind(header, stream)
        }
    }

    /// The height that a NEWLEN gave, or else the header's.
    fn height_in_use(&self, header: &Header) -> u32
        ensures { result ≡ height_told (fields_of header.now) self.now }
    {
        if self.late_height == 0 {
            header.yd
        } else {
            self.late_height
        }
    }

    /// Whether a NEWLEN gave a height.
    fn is_given(&self) -> bool
        ensures { result ≡ is_given self.now }
    {
        self.late_height != 0
    }

    /// Returns the next part of a stripe.
    fn next_in_stripe(&mut self, header: &Header, stream: &[u8]) -> Found
        requires few { self.old.entities < 2 ^ 32 - 1 }
        ensures told { TellsInStripe (fields_of header.now) stream.now self.old self.new result }
        ensures any { TellsOfAny stream.now self.old self.new result }
    {
        let rest = rest_of(stream, self.offset);
        let place = Place {
            height: 0,
            entities: self.entities,
            given: self.is_given(),
        };
        let mut source = Piece { rest };
        match read_part(header, place, self.moved, &mut source) {
            Ok(taken) => self.take(taken, rest.len() - source.rest.len()),
            Err(fault) => Found::Broken {
                fault,
                offset: self.offset,
                stripe: self.entities,
            },
        }
    }

    /// Returns the next part after the last stripe.
    fn next_behind(&mut self, header: &Header, stream: &[u8]) -> Found
        ensures told { TellsBehind (fields_of header.now) stream.now self.old self.new result }
        ensures any { TellsOfAny stream.now self.old self.new result }
    {
        if self.sees_height(header, stream) {
            self.next_before_height(header, stream)
        } else {
            Found::End {
                len: self.offset + self.tail_len(stream),
            }
        }
    }

    /// The length of an empty stripe data entity after a height that came last.
    fn tail_len(&self, stream: &[u8]) -> usize
        ensures is { TailIs self.now stream.now result }
        ensures fits { (0 < result → self.now.offset ≤ length stream.now) × (result ≤ 2) }
    {
        if !self.at_height {
            return 0;
        }
        match marker_at(rest_of(stream, self.offset)) {
            Some(_) => 2,
            None => 0,
        }
    }

    /// Whether a NEWLEN follows the last stripe, after any comments.
    fn sees_height(&self, header: &Header, stream: &[u8]) -> bool
        ensures { SeesHeight (fields_of header.now) stream.now self.now result }
    {
        if self.is_given() {
            return false;
        }
        if !header.is_variable() {
            return false;
        }
        if self.at_height {
            return true;
        }
        let mut source = Piece {
            rest: rest_of(stream, self.offset),
        };
        match look(header, self.entities, &mut source) {
            Ok(height) => height.is_some(),
            Err(_) => false,
        }
    }

    /// Returns a comment after the last stripe, or the NEWLEN there, if it is known that one follows.
    fn next_before_height(&mut self, header: &Header, stream: &[u8]) -> Found
        ensures told { TellsBefore (fields_of header.now) stream.now self.old self.new result }
        ensures any { TellsOfAny stream.now self.old self.new result }
    {
        let rest = rest_of(stream, self.offset);
        let mut source = Piece { rest };
        match read_before_height(header, self.entities, &mut source) {
            Some(taken) => {
                self.at_height = true;
                self.take(taken, rest.len() - source.rest.len())
            }
            None => Found::End { len: self.offset },
        }
    }

    /// Moves past a part that was read, of this length, and returns it.
    fn take(&mut self, taken: Taken, len: usize) -> Found
        requires fits { self.old.offset + len < 2 ^ 64 }
        requires few { CanPass taken self.old }
        ensures told { result ≡ found.Part (part_told taken self.old len) }
        ensures behind { self.new ≡ walk_behind taken self.old len }
    {
        let (offset, stripe) = (self.offset, self.entities);
        *self = self.behind(taken, len);
        Found::Part(Part {
            kind: kind_of(taken),
            offset,
            len,
            stripe,
        })
    }

    /// The walk after such a part.
    fn behind(&self, taken: Taken, len: usize) -> PartWalk
        requires fits { self.now.offset + len < 2 ^ 64 }
        requires few { CanPass taken self.now }
        ensures { result ≡ walk_behind taken self.now len }
    {
        let offset = self.offset + len;
        match taken {
            Taken::Comment => PartWalk { offset, ..*self },
            Taken::Move => PartWalk {
                offset,
                moved: true,
                ..*self
            },
            Taken::NewHeight(height) => PartWalk {
                offset,
                late_height: height,
                at_height: true,
                ..*self
            },
            Taken::DataEntity => PartWalk {
                offset,
                entities: self.entities + 1,
                moved: false,
                at_height: false,
                ..*self
            },
        }
    }

    /// Moves past the header, and returns it.
    fn pass_header(&mut self) -> Found
        ensures told { result ≡ found.Part header_part }
        ensures behind { self.new ≡ header_walk }
    {
        *self = PartWalk {
            offset: HEADER_LEN,
            ..PartWalk::start()
        };
        Found::Part(Part {
            kind: PartKind::Header,
            offset: 0,
            len: HEADER_LEN,
            stripe: 0,
        })
    }
}
