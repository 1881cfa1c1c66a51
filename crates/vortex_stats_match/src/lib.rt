//! LIKE patterns matched on bytes of UTF-8, and the order of view values by their first bytes.
#![tactic(auto)]

pub mod buffers;
pub mod front;
pub mod head_laws;
pub mod laws;
pub mod like;
pub mod matching;
pub mod order;
pub mod value;
