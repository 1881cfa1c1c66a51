//! What arrays are made of: shared buffers, bits, masks, and lists of integers of one type.
#![tactic(auto)]

mod bit;
pub mod bit_buffer;
mod bitwise;
pub mod buffer;
mod collect;
mod count;
pub mod element;
mod in_range;
pub mod mask;
mod places;
pub mod primitive_buffer;
mod unpack;
mod within;

pub use bit_buffer::BitBuffer;
pub use buffer::Buffer;
pub use mask::Mask;
pub use primitive_buffer::PrimitiveBuffer;
