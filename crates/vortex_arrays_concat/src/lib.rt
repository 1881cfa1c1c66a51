//! Struct arrays and validities put end to end.
#![tactic(auto)]

mod columns;
mod fixed_lists;
mod lists;
mod nested;
mod plain_parts;
mod plain_types;
mod records;
mod room;
mod rows;
mod strings;
pub mod struct_array_concat;
pub mod validity_concat;
