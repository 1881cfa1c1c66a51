//! Native integers in decimal digits.
ghost use Rattle.std.specs.Prelude.{◌≡◌, ◌++◌, OnOk};
ghost use Rattle.std.specs.Fmt.{signed_decimal};

use std::alloc::AllocError;
use vortex_arrays_buffer::element::Element;
use vortex_table_response::push_number;

/// A native integer that is written with no test of its type.
pub(crate) trait Digits: Element {
    fn push(self, out: &mut Vec<u8>) -> Result<(), AllocError>
        ensures { OnOk result
            (out.new.items ≡ out.old.items ++ signed_decimal (Self.integer self)) };
}

impl Digits for u8 {
    fn push(self, out: &mut Vec<u8>) -> Result<(), AllocError> {
        push_number(out, self)
    }
}

impl Digits for u16 {
    fn push(self, out: &mut Vec<u8>) -> Result<(), AllocError> {
        push_number(out, self)
    }
}

impl Digits for u32 {
    fn push(self, out: &mut Vec<u8>) -> Result<(), AllocError> {
        push_number(out, self)
    }
}

impl Digits for u64 {
    fn push(self, out: &mut Vec<u8>) -> Result<(), AllocError> {
        push_number(out, self)
    }
}

impl Digits for i8 {
    fn push(self, out: &mut Vec<u8>) -> Result<(), AllocError> {
        push_number(out, self)
    }
}

impl Digits for i16 {
    fn push(self, out: &mut Vec<u8>) -> Result<(), AllocError> {
        push_number(out, self)
    }
}

impl Digits for i32 {
    fn push(self, out: &mut Vec<u8>) -> Result<(), AllocError> {
        push_number(out, self)
    }
}

impl Digits for i64 {
    fn push(self, out: &mut Vec<u8>) -> Result<(), AllocError> {
        push_number(out, self)
    }
}
