//! What a table tests before a command changes anything: types, paths, rows, leaf columns, bound
//! lengths; the positions of a type's leaves; and what paths ask for of a type and of its values.
#![tactic(auto)]

pub mod answer;
pub mod append;
pub mod check;
pub mod cut;
pub mod description;
pub mod error;
pub mod layout;
pub mod leaf;
pub mod leaves;
pub mod lengths;
mod part_index;
pub mod projection;
pub mod type_fault;
