//! Names of the arrays as data. In Vortex an array is its data with a type and a length, and has
//! the calls of its data. Here the layout has all of that, so the data of an array is the array.

use vortex_arrays_leaf::bool_array::BoolArray;
use vortex_arrays_leaf::constant_array::ConstantArray;
use vortex_arrays_leaf::primitive_array::PrimitiveArray;
use vortex_arrays_leaf::view_array::VarBinViewArray;
use vortex_arrays_nested::dict_array::DictArray;
use vortex_arrays_nested::fixed_size_list::FixedSizeListArray;
use vortex_arrays_nested::list_view::ListViewArray;
use vortex_arrays_struct::struct_array::StructArray;

/// Booleans with their validity, as Vortex's `BoolData`.
pub type BoolData = BoolArray;

/// Integers with their validity, as Vortex's `PrimitiveData`.
pub type PrimitiveData = PrimitiveArray;

/// A value and its number of rows, as Vortex's `ConstantData`.
pub type ConstantData = ConstantArray;

/// Codes and values, as Vortex's `DictData`.
pub type DictData = DictArray;

/// Elements of fixed-size lists, as Vortex's `FixedSizeListData`.
pub type FixedSizeListData = FixedSizeListArray;

/// Elements, offsets and sizes of lists, as Vortex's `ListViewData`.
pub type ListViewData = ListViewArray;

/// The fields of structs, as the data of Vortex's `StructArray`.
pub type StructData = StructArray;

/// Views, buffers and validity of strings or bytes, as Vortex's `VarBinViewData`.
pub type VarBinViewData = VarBinViewArray;
