//! Arrays: columns of values of one type, in eight layouts, with the buffers, masks and views of
//! sixteen bytes that they are made of.
#![tactic(auto)]

pub mod laws;

pub use vortex_arrays_buffer::bit_buffer::BitBuffer;
pub use vortex_arrays_buffer::buffer::Buffer;
pub use vortex_arrays_buffer::element::Element;
pub use vortex_arrays_buffer::mask::Mask;
pub use vortex_arrays_buffer::primitive_buffer::PrimitiveBuffer;
pub use vortex_arrays_builder::constant::build_constant;
pub use vortex_arrays_builder::fits::{fits_constant, fits_dictionary};
pub use vortex_arrays_builder::plain::build_plain;
pub use vortex_arrays_builder::primitive_array_bytes::PrimitiveArrayBytes;
pub use vortex_arrays_cast::cast::cast_array;
pub use vortex_arrays_concat::struct_array_concat::StructArrayConcat;
pub use vortex_arrays_concat::validity_concat::ValidityConcat;
pub use vortex_arrays_core::array::{ArrayLayout, ArrayRef, StringKind, Validity};
pub use vortex_arrays_dictionary::bool_array_ext::BoolArrayExt;
pub use vortex_arrays_dictionary::build::build_dictionary;
pub use vortex_arrays_dictionary::constant::is_constant;
pub use vortex_arrays_dictionary::encode::dict_encode;
pub use vortex_arrays_dictionary::native_buffer::NativeBuffer;
pub use vortex_arrays_dictionary::primitive_array_ext::PrimitiveArrayExt;
pub use vortex_arrays_leaf::bool_array::{BoolArray, BoolDataParts};
pub use vortex_arrays_leaf::constant_array::ConstantArray;
pub use vortex_arrays_leaf::primitive_array::{PrimitiveArray, PrimitiveDataParts};
pub use vortex_arrays_leaf::view_array::VarBinViewArray;
pub use vortex_arrays_nested::dict_array::{DictArray, DictParts};
pub use vortex_arrays_nested::fixed_size_list::{
    FixedSizeListArray, FixedSizeListDataParts, FixedSizeListSlots,
};
pub use vortex_arrays_nested::list_view::{ListViewArray, ListViewDataParts, ListViewSlots};
pub use vortex_arrays_parts::array_ref_ext::ArrayRefExt;
pub use vortex_arrays_parts::constant_array_ext::{ConstantArrayExt, ConstantDataParts};
pub use vortex_arrays_parts::data::{
    BoolData, ConstantData, DictData, FixedSizeListData, ListViewData, PrimitiveData, StructData,
    VarBinViewData,
};
pub use vortex_arrays_parts::dict_array_ext::{DictArrayExt, DictOwnedExt};
pub use vortex_arrays_parts::fixed_size_list_array_ext::FixedSizeListArrayExt;
pub use vortex_arrays_parts::slots::{
    BoolArraySlotsExt, BoolSlots, ConstantArraySlotsExt, ConstantSlots, DictArraySlotsExt,
    DictSlots, PrimitiveArraySlotsExt, PrimitiveSlots, StructArraySlotsExt, StructSlots,
    VarBinViewArraySlotsExt, VarBinViewSlots,
};
pub use vortex_arrays_parts::struct_array_ext::StructArrayExt;
pub use vortex_arrays_parts::var_bin_view_array_ext::{VarBinViewArrayExt, VarBinViewDataParts};
pub use vortex_arrays_parts::var_bin_view_array_iter::VarBinViewArrayIter;
pub use vortex_arrays_rebuild::density::ListViewArrayExt;
pub use vortex_arrays_rebuild::rebuild::{ListViewRebuild, ListViewRebuildMode};
pub use vortex_arrays_struct::column::column_at;
pub use vortex_arrays_struct::fields::StructDataParts;
pub use vortex_arrays_struct::mask::mask;
pub use vortex_arrays_struct::struct_array::StructArray;
pub use vortex_arrays_struct::unmasked_fields_iter::UnmaskedFieldsIter;
pub use vortex_arrays_validity::validity_ext::ValidityExt;
pub use vortex_arrays_view::build::{MAX_BUFFER_LEN, build_views, build_views_from_offsets};
pub use vortex_arrays_view::error::ArrayError;
pub use vortex_arrays_view::inlined::Inlined;
pub use vortex_arrays_view::lengths::offsets_to_lengths;
pub use vortex_arrays_view::reference::Ref;
pub use vortex_arrays_view::view::{BinaryView, MAX_INLINED_SIZE};
