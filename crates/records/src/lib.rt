// The bytes of a design file: numbers, lists of terms and records, as they stand in a file, and written to one.
#![tactic(auto)]

mod bytes; // bytes.rt: numbers in a file
mod kind; // kind.rt: the kinds of records
mod terms; // terms.rt: lists of terms as they stand in a file
mod writer; // writer.rt: records written one behind the other

pub use bytes::u16_at;
pub use kind::Kind;
pub use terms::{Terms, TermsIter};
pub use writer::{Writer, record_size};

/// How many bytes stand before the body of a record: the length of the body, and the kind.
pub const RECORD_HEAD_SIZE: usize = 4;

/// How many bytes a term has.
pub const TERM_SIZE: usize = 4;
