//! Lines as commands, read token by token, with the rows of an append in columns where possible.
#![tactic(auto)]

mod columns;
mod give_up;
mod integers;
mod line;
mod members;
mod tokens;
mod tree;

pub use line::read_command;
