//! A table's text, RFC 8259's JSON, as a table: read into lent words, or asked where it stands. The
//! Rust's `SegmentTable::parse`.
#![tactic(auto)]

mod laws;
pub mod layout;
pub mod lists;
mod names;
mod puts;
mod reader;
mod staging;

pub use laws::{a_staged_table_answers_as_the_table, the_written_words_are_the_table};
pub use names::source_names;
pub use reader::{Read, Room, read_table};
pub use staging::{Staged, stage, work_needed};
