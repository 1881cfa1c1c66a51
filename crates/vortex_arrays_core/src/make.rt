//! Arrays from the parts of each layout.
ghost use Rattle.std.specs.Prelude.{◌≡◌, IfOk, length, map};
ghost use Rattle.vortex_model.specs.LogicalType.{struct, with_nullability, either_nullable, nullability_of};
ghost use Rattle.vortex_dtype_ptype.specs.View.{nullability_of_flag};
ghost use Rattle.vortex_dtype_core.specs.View.{type_of};
ghost use Rattle.vortex_arrays_model.specs.Layout.{IsSound, HasLength, array_type_of, type_of_strings, fields_of, bools, numbers, strings, constant, dictionary, fixed_lists, list_views, records};
ghost use Rattle.vortex_arrays_model.specs.Parts.{columns_of};
ghost use Rattle.vortex_arrays_buffer.specs.PrimitiveBuffers.{kind_of_numbers, integers_of};
ghost use Rattle.vortex_scalar_core.specs.Scalar.{scalar_type, scalar_raw};
ghost use Rattle.vortex_arrays_core.specs.LayoutOf.{valid_of, strings_of};

use crate::array::{ArrayLayout, ArrayRef, StringKind, Validity};
use bytes::Bytes;
use std::alloc::{AllocError, Global};
use std::rc::Rc;
use vortex_arrays_buffer::{BitBuffer, Buffer, PrimitiveBuffer};
use vortex_arrays_view::view::BinaryView;
use vortex_dtype_core::dtype::DType;
use vortex_dtype_core::struct_fields::StructFields;
use vortex_dtype_ptype::field_names::FieldNames;
use vortex_dtype_ptype::nullability::Nullability;
use vortex_scalar_core::scalar::Scalar;

impl ArrayRef {
    /// An array of booleans, as Vortex's `BoolArray::new_unchecked`.
    pub fn of_bools(
        alloc: Global,
        bits: BitBuffer,
        validity: Validity,
    ) -> Result<ArrayRef, AllocError>
        requires { IsSound (bools bits (valid_of validity)) }
        ensures { IfOk result (λ array. array ≡ bools bits (valid_of validity)) }
    {
        let dtype = DType::Bool(validity.nullability());
        ArrayRef::new_unchecked(alloc, dtype, ArrayLayout::Bool(bits, validity))
    }

    /// An array of integers, as Vortex's `PrimitiveArray::new_unchecked`.
    #[tactic(auto, using(vortex_dtype_core::proofs::Views::one_level))]
    pub fn of_numbers(
        alloc: Global,
        items: PrimitiveBuffer,
        validity: Validity,
    ) -> Result<ArrayRef, AllocError>
        requires { HasLength (valid_of validity) (length (integers_of items)) }
        ensures { IfOk result (λ array. array ≡ numbers (kind_of_numbers items) (integers_of items)
            (valid_of validity)) }
    {
        let dtype = DType::Primitive(items.ptype(), validity.nullability());
        ArrayRef::new_unchecked(alloc, dtype, ArrayLayout::Primitive(items, validity))
    }

    /// An array of strings or bytes by views of sixteen bytes, as Vortex's
    /// `VarBinViewArray::new_unchecked`.
    pub fn of_strings(
        alloc: Global,
        kind: StringKind,
        views: Buffer<BinaryView>,
        buffers: Rc<Vec<Bytes>>,
        validity: Validity,
    ) -> Result<ArrayRef, AllocError>
        requires { IsSound
            (strings (strings_of kind) views buffers.value.items (valid_of validity)) }
        ensures { IfOk result (λ array. array ≡ strings (strings_of kind) views buffers.value.items
            (valid_of validity)) }
    {
        let dtype = string_dtype(kind, validity.nullability());
        let layout = ArrayLayout::VarBinView(kind, views, buffers, validity);
        ArrayRef::new_unchecked(alloc, dtype, layout)
    }

    /// An array of one value in `len` rows, as Vortex's `ConstantArray::new`.
    #[tactic(auto, using(crate::proofs::Constructors::valid_so))]
    pub fn of_constant(alloc: Global, scalar: Scalar, len: usize) -> Result<ArrayRef, AllocError>
        ensures { IfOk result
            (λ array. array ≡ constant (scalar_type scalar) (scalar_raw scalar) len) }
    {
        let dtype = scalar.dtype().clone()?;
        let _ = scalar.value();
        ArrayRef::new_unchecked(alloc, dtype, ArrayLayout::Constant(scalar, len))
    }

    /// A dictionary of codes and the values that they are indices of, as Vortex's
    /// `DictArray::new_unchecked`.
    pub fn of_dict(
        alloc: Global,
        codes: ArrayRef,
        values: ArrayRef,
        all_values_referenced: bool,
    ) -> Result<ArrayRef, AllocError>
        requires { IsSound codes → IsSound values
            → IsSound (dictionary codes values all_values_referenced) }
        ensures { IfOk result (λ array. array ≡ dictionary codes values all_values_referenced) }
    {
        codes.is_sound();
        values.is_sound();
        let dtype = dictionary_dtype(codes.dtype(), values.dtype())?;
        let layout = ArrayLayout::Dict(codes, values, all_values_referenced);
        ArrayRef::new_unchecked(alloc, dtype, layout)
    }

    /// An array of lists of one size, as Vortex's `FixedSizeListArray::new_unchecked`.
    #[tactic(auto, using(vortex_dtype_core::proofs::Views::one_level))]
    pub fn of_fixed_lists(
        alloc: Global,
        elements: ArrayRef,
        size: u32,
        len: usize,
        validity: Validity,
    ) -> Result<ArrayRef, AllocError>
        requires { IsSound elements → IsSound (fixed_lists elements size len (valid_of validity)) }
        ensures { IfOk result (λ array. array ≡ fixed_lists elements size len (valid_of validity)) }
    {
        elements.is_sound();
        let element = Rc::new(alloc, elements.dtype().clone()?)?;
        let dtype = DType::FixedSizeList(element, size, validity.nullability());
        let layout = ArrayLayout::FixedSizeList(elements, size, len, validity);
        ArrayRef::new_unchecked(alloc, dtype, layout)
    }

    /// An array of lists of any size, as Vortex's `ListViewArray::new_unchecked`.
    #[tactic(auto, using(vortex_dtype_core::proofs::Views::one_level))]
    pub fn of_list_views(
        alloc: Global,
        elements: ArrayRef,
        offsets: ArrayRef,
        sizes: ArrayRef,
        is_zero_copy_to_list: bool,
        validity: Validity,
    ) -> Result<ArrayRef, AllocError>
        requires { IsSound elements → IsSound offsets → IsSound sizes → IsSound
            (list_views elements offsets sizes is_zero_copy_to_list (valid_of validity)) }
        ensures { IfOk result
            (λ array. array ≡ list_views elements offsets sizes is_zero_copy_to_list
            (valid_of validity)) }
    {
        elements.is_sound();
        offsets.is_sound();
        sizes.is_sound();
        let element = Rc::new(alloc, elements.dtype().clone()?)?;
        let dtype = DType::List(element, validity.nullability());
        let follow = is_zero_copy_to_list;
        let layout = ArrayLayout::ListView(elements, offsets, sizes, follow, validity);
        ArrayRef::new_unchecked(alloc, dtype, layout)
    }

    /// A struct array of `len` rows, as Vortex's `StructArray::new_unchecked`.
    pub fn of_records(
        alloc: Global,
        names: Rc<FieldNames>,
        fields: Vec<ArrayRef>,
        len: usize,
        validity: Validity,
    ) -> Result<ArrayRef, AllocError>
        requires named { length names.value ≡ length fields.items }
        requires sound { IsSound
            (records (columns_of names.value fields.items) len (valid_of validity)) }
        ensures { IfOk result (λ array. array ≡ records (columns_of names.value fields.items) len
            (valid_of validity)) }
    {
        let dtype = struct_dtype(alloc, &names, &fields, validity.nullability())?;
        let layout = ArrayLayout::Struct(names, fields, len, validity);
        ArrayRef::new_unchecked(alloc, dtype, layout)
    }
}

// The type of strings or of bytes.
fn string_dtype(kind: StringKind, nullability: Nullability) -> DType
    ensures { type_of result ≡ type_of_strings (strings_of kind) (nullability_of_flag nullability) }
{
    match kind {
        StringKind::Utf8 => DType::Utf8(nullability),
        StringKind::Binary => DType::Binary(nullability),
    }
}

// The type of a dictionary, nullable where that of the codes or of the values is.
#[tactic(auto, using(crate::proofs::Constructors::second_can_be))]
fn dictionary_dtype(codes: &DType, values: &DType) -> Result<DType, AllocError>
    ensures { IfOk result (λ dtype. type_of dtype ≡ with_nullability
        (either_nullable (nullability_of (type_of codes.now)) (nullability_of (type_of values.now)))
        (type_of values.now)) }
{
    let either = codes.nullability() | values.nullability();
    let dtype = values.with_nullability(either)?;
    Ok(dtype)
}

#[tactic(auto, using(crate::proofs::Constructors::of_records))]
fn struct_dtype(
    alloc: Global,
    names: &FieldNames,
    fields: &[ArrayRef],
    nullability: Nullability,
) -> Result<DType, AllocError>
    requires { length names.now ≡ length fields.now }
    ensures { IfOk result
        (λ dtype. type_of dtype ≡ struct (fields_of (columns_of names.now fields.now))
        (nullability_of_flag nullability)) }
{
    let dtypes = field_dtypes(alloc, fields)?;
    let all = StructFields::new(names.clone()?, dtypes)?;
    Ok(DType::Struct(all, nullability))
}

fn field_dtypes(alloc: Global, fields: &[ArrayRef]) -> Result<Vec<DType>, AllocError>
    ensures kinds { IfOk result (λ dtypes. map type_of dtypes.items
        ≡ map array_type_of fields.now) }
    ensures count { IfOk result (λ dtypes. length dtypes.items ≡ length fields.now) }
{
    let mut dtypes = Vec::with_capacity(alloc, fields.len())?;
    for field in fields {
        dtypes.push(field.dtype().clone()?)?;
    }
    Ok(dtypes)
}
