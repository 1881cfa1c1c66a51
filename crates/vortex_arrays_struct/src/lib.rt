//! Struct arrays, and the columns of any array of a struct type.
#![tactic(auto)]

pub mod check;
pub mod column;
pub mod edit;
pub mod fields;
pub mod mask;
pub mod pairs;
pub mod part;
pub mod push;
pub mod slices;
pub mod struct_array;
pub mod unmasked_fields_iter;
