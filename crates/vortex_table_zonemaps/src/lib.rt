//! Zone maps as a table: a row for each zone of rows, such as a chunk, and of each leaf column a
//! low, a high and a null count. Proofs are bound to its columns, and what selects rows selects
//! zones.
#![tactic(auto)]

pub mod bind;
pub mod column;
pub mod known;
pub mod leaf;
pub mod operands;
pub mod place;
pub mod proved;
pub mod views;
pub mod zone_maps;
