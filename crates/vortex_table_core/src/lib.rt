//! Tables of rows in chunks, and scans that skip chunks.
#![tactic(auto)]

pub mod arrays;
mod describe;
mod group;
pub mod join;
mod plan;
pub mod retype;
mod run;
pub mod scan;
pub mod table;
