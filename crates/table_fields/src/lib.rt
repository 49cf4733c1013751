//! The members of a table's text, by where they stand: the Rust's `SegmentTable::parse`, whose
//! messages are one reason here. Each record is walked over once; what is missing, or of another
//! type, is `None`.
#![tactic(auto)]

mod members;
pub mod segments;
pub mod sources;
pub mod top;
