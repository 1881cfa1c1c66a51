//! Scalars of lists, structs, maps, unions and extensions, from their parts.
mod children;
pub mod constructors;
mod values;
