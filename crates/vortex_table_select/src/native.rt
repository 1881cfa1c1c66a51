//! Native integers as values.
ghost use Rattle.std.specs.Prelude.{◌≡◌};
ghost use Rattle.vortex_model.specs.Content.{raw_number};
ghost use Rattle.vortex_scalar_value.specs.View.{raw_of};

use vortex_arrays_buffer::element::Element;
use vortex_scalar_value::pvalue::PValue;
use vortex_scalar_value::scalar_value::ScalarValue;

/// A native integer that is made a value with no test of its type.
pub(crate) trait Native: Element {
    fn into_value(self) -> ScalarValue
        ensures { raw_of result ≡ raw_number Self.kind (Self.integer self) };
}

impl Native for u8 {
    #[tactic(auto, using(vortex_scalar_value::proofs::Views::one_level))]
    fn into_value(self) -> ScalarValue {
        ScalarValue::Primitive(PValue::U8(self))
    }
}

impl Native for u16 {
    #[tactic(auto, using(vortex_scalar_value::proofs::Views::one_level))]
    fn into_value(self) -> ScalarValue {
        ScalarValue::Primitive(PValue::U16(self))
    }
}

impl Native for u32 {
    #[tactic(auto, using(vortex_scalar_value::proofs::Views::one_level))]
    fn into_value(self) -> ScalarValue {
        ScalarValue::Primitive(PValue::U32(self))
    }
}

impl Native for u64 {
    #[tactic(auto, using(vortex_scalar_value::proofs::Views::one_level))]
    fn into_value(self) -> ScalarValue {
        ScalarValue::Primitive(PValue::U64(self))
    }
}

impl Native for i8 {
    #[tactic(auto, using(vortex_scalar_value::proofs::Views::one_level))]
    fn into_value(self) -> ScalarValue {
        ScalarValue::Primitive(PValue::I8(self))
    }
}

impl Native for i16 {
    #[tactic(auto, using(vortex_scalar_value::proofs::Views::one_level))]
    fn into_value(self) -> ScalarValue {
        ScalarValue::Primitive(PValue::I16(self))
    }
}

impl Native for i32 {
    #[tactic(auto, using(vortex_scalar_value::proofs::Views::one_level))]
    fn into_value(self) -> ScalarValue {
        ScalarValue::Primitive(PValue::I32(self))
    }
}

impl Native for i64 {
    #[tactic(auto, using(vortex_scalar_value::proofs::Views::one_level))]
    fn into_value(self) -> ScalarValue {
        ScalarValue::Primitive(PValue::I64(self))
    }
}
