//! List views rebuilt and trimmed, and the elements that their lists have.
#![tactic(auto)]

mod copy;
pub mod density;
mod items;
pub mod laws;
mod plan;
mod ranges;
mod read;
pub mod rebuild;
mod runs;
mod trim;
