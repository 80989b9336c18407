//! The stream layer of JBIG1 (ITU-T T.82) in the fax profile (ITU-T T.85): one plane, no differential layers.
#![tactic(auto)]

mod byte_source;
mod conversion;
mod decoding;
mod encoding;
mod fault;
mod header;
mod height;
pub mod laws;
mod lent;
mod line;
mod options;
mod output_buffer;
mod parts;
mod pieces;
mod row_sink;
mod row_source;
mod segments;
mod state;
mod summary;

pub use conversion::{to_jbg, to_pbm};
pub use decoding::{decode, decode_rows};
pub use encoding::{Learning, RowEncoder, RowNumbers, encode, encode_rows};
pub use fault::Fault;
pub use header::Header;
pub use height::find_height;
pub use options::Options;
pub use parts::{Found, Part, PartKind, PartWalk};
pub use pieces::held::HeldBytes;
pub use pieces::numbers::{HeadNumbers, MoveNumbers, PieceNumbers, StageNumbers};
pub use pieces::{More, Outcome, PieceDecoder, Progress};
pub use row_sink::RowSink;
pub use row_source::RowSource;
pub use segments::marker_at;
pub use summary::{Summary, info, summarize};
