//! Zones of tables: statistics of each leaf column in the rows of a group, as a row of a table of
//! zones, and rows of values as an array.
#![tactic(auto)]

mod build;
mod statistic;
mod types;
mod zone;

pub use build::build_rows;
pub use types::zone_dtype;
pub use zone::zone_of;
