//! Further calls of `Validity`, which test, convert, combine and patch null rows, and the integers
//! of an array as indices.
#![tactic(auto)]

mod bits;
mod patch;
pub mod places;
pub mod validity_ext;
