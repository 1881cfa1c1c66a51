//! What a statistic is in each zone, as a column that grows.
ghost use Rattle.std.specs.Prelude.{◌≡◌, ◌+◌, ◌≤◌, Bool, List, Option, length, map, take, drop};
ghost use Rattle.vortex_model.specs.Content.{Content, boolean, integer};
ghost use Rattle.vortex_arrays_model.specs.Layout.{string_content};
ghost use Rattle.vortex_arrays_core.specs.LayoutOf.{strings_of};
ghost use Rattle.vortex_stats_mask.specs.Columns.{column_of, contents_of, values_of};
ghost use Rattle.vortex_stats_mask.specs.Headed.{AreHeaded, HaveHeads};
ghost use Rattle.vortex_table_zonemaps.specs.Known.{AreKnown};
ghost use Rattle.vortex_table_zonemaps.specs.Views.{AreStrings};

use crate::known::Known;
use crate::views::Views;
use bytes::Bytes;
use std::alloc::{AllocError, Global};
use vortex_arrays_core::array::StringKind;
use vortex_dtype_core::dtype::DType;
use vortex_scalar_value::scalar_value::ScalarValue;
use vortex_stats_bind::value::Value;
use vortex_stats_mask::column::{Column, Items, Numbers, Strings, ValidRows};
use vortex_stats_match::buffers::Buffers;

/// What a statistic is in each zone, in order.
#[derive(Drop)]
pub enum ZoneColumn {
    Bools(Known<bool>),
    Integers(Known<i64>),
    Strings(Views),
    /// Not held here, since a value is of another kind, or no integer of 64 bits with a sign.
    Other,
}

impl ZoneColumn {
    ghost use Rattle.std.specs.Prelude.{◌≡◌, [], OnOk};
    ghost use Rattle.vortex_model.specs.Content.{content_of, null, boolean, integer};
    ghost use Rattle.vortex_arrays_model.specs.Layout.{string_content};
    ghost use Rattle.vortex_arrays_core.specs.LayoutOf.{strings_of};
    ghost use Rattle.vortex_scalar_value.specs.View.{raw_of};
    ghost use Rattle.vortex_stats_bind.specs.OperandValue.{operand_value};
    ghost use Rattle.vortex_table_zonemaps.specs.Column.{IsColumnOf, Keeps, Puts};

    /// A column of no zones, for counts.
    #[tactic(auto, using(crate::proofs::Held::nothing))]
    pub fn of_counts(alloc: Global) -> ZoneColumn
        ensures { IsColumnOf result [] }
    {
        ZoneColumn::Integers(Known::new(alloc))
    }

    /// A column of no zones, for values of a leaf of this type.
    #[tactic(auto, using(crate::proofs::Held::nothing))]
    pub fn of_type(alloc: Global, dtype: Option<&DType>) -> ZoneColumn
        ensures { IsColumnOf result [] }
    {
        let Some(dtype) = dtype else {
            return ZoneColumn::Other;
        };
        match dtype {
            DType::Bool(_) => ZoneColumn::Bools(Known::new(alloc)),
            DType::Primitive(_, _) => ZoneColumn::Integers(Known::new(alloc)),
            DType::Utf8(_) => ZoneColumn::Strings(Views::new(alloc, StringKind::Utf8)),
            DType::Binary(_) => ZoneColumn::Strings(Views::new(alloc, StringKind::Binary)),
            _ => ZoneColumn::Other,
        }
    }

    fn put_null(&mut self, count: usize) -> Result<(), AllocError>
        ensures kept { Keeps count self.old self.new }
        ensures put { OnOk result (Puts count null self.old self.new) }
    {
        match self {
            ZoneColumn::Bools(known) => known.put(count, false, false),
            ZoneColumn::Integers(known) => known.put(count, 0, false),
            ZoneColumn::Strings(views) => views.put_null(count),
            ZoneColumn::Other => Ok(()),
        }
    }

    fn put_boolean(&mut self, count: usize, flag: bool) -> Result<(), AllocError>
        ensures kept { Keeps count self.old self.new }
        ensures put { OnOk result (Puts count (boolean flag) self.old self.new) }
    {
        if let ZoneColumn::Bools(known) = self {
            return known.put(count, flag, true);
        }
        *self = ZoneColumn::Other;
        Ok(())
    }

    fn put_integer(&mut self, count: usize, number: i128) -> Result<(), AllocError>
        ensures kept { Keeps count self.old self.new }
        ensures put { OnOk result (Puts count (integer number) self.old self.new) }
    {
        if let ZoneColumn::Integers(known) = self {
            if let Ok(number) = i64::try_from(number) {
                return known.put(count, number, true);
            }
        }
        *self = ZoneColumn::Other;
        Ok(())
    }

    fn put_string(
        &mut self,
        count: usize,
        kind: StringKind,
        value: &Bytes,
    ) -> Result<(), AllocError>
        ensures kept { Keeps count self.old self.new }
        ensures put { OnOk result
            (Puts count (string_content (strings_of kind) value.now) self.old self.new) }
    {
        if let ZoneColumn::Strings(views) = self {
            if views.put(count, kind, value)? {
                return Ok(());
            }
        }
        *self = ZoneColumn::Other;
        Ok(())
    }

    #[tactic(auto, using(vortex_scalar_value::proofs::Views::one_level))]
    fn put_stored(&mut self, count: usize, value: &ScalarValue) -> Result<(), AllocError>
        ensures kept { Keeps count self.old self.new }
        ensures put { OnOk result (Puts count (content_of (raw_of value.now)) self.old self.new) }
    {
        match value {
            ScalarValue::Bool(flag) => self.put_boolean(count, *flag),
            ScalarValue::Primitive(number) => self.put_integer(count, number.get()),
            ScalarValue::Utf8(text) => self.put_string(count, StringKind::Utf8, text.as_bytes()),
            ScalarValue::Binary(bytes) => self.put_string(count, StringKind::Binary, bytes),
            ScalarValue::Tuple(_) | ScalarValue::Union(_) | ScalarValue::Variant(_) => {
                *self = ZoneColumn::Other;
                Ok(())
            }
        }
    }

    /// Puts a value after those of the first `count` zones, which stay as they are, also after an
    /// error. Later values, which an earlier call left that ran out of memory, are dropped.
    pub fn put(&mut self, count: usize, value: Value) -> Result<(), AllocError>
        ensures kept { Keeps count self.old self.new }
        ensures put { OnOk result (Puts count (operand_value value.entry) self.old self.new) }
    {
        match value {
            Value::Null => self.put_null(count),
            Value::Truth(flag) => self.put_boolean(count, flag),
            Value::Count(number) => self.put_integer(count, i128::from(number)),
            Value::Stored(value) => self.put_stored(count, value),
        }
    }
}

// Integers of `count` neighbouring zones.
fn integers_in<'a>(known: &'a Known<i64>, first: usize, count: usize) -> Column<'a>
    requires { (cs : List Content) × AreKnown integer known.now cs × (first + count ≤ length cs) }
    ensures { (cs : List Content) → AreKnown integer known.now cs → first + count ≤ length cs
        → column_of result ≡ take count (drop first cs) }
{
    Column {
        items: Items::Numbers(Numbers::I64(known.values_in(first, count))),
        validity: ValidRows::Flags(known.flags_in(first, count)),
    }
}

fn bools_in<'a>(known: &'a Known<bool>, first: usize, count: usize) -> Column<'a>
    requires { (cs : List Content) × AreKnown boolean known.now cs × (first + count ≤ length cs) }
    ensures { (cs : List Content) → AreKnown boolean known.now cs → first + count ≤ length cs
        → column_of result ≡ take count (drop first cs) }
{
    Column {
        items: Items::Bools(known.values_in(first, count)),
        validity: ValidRows::Flags(known.flags_in(first, count)),
    }
}

fn string_items<'a>(kind: StringKind, strings: &Strings<'a>) -> Items<'a>
    ensures values { contents_of result
        ≡ map (string_content (strings_of kind)) (values_of strings.now) }
    ensures headed { (valid : Option (List Bool)) → HaveHeads valid strings.now
        → AreHeaded result valid }
{
    match kind {
        StringKind::Utf8 => Items::Texts(*strings),
        StringKind::Binary => Items::Binaries(*strings),
    }
}

fn strings_in<'a>(s: &'a Views, first: usize, count: usize) -> Column<'a>
    requires { (cs : List Content) × AreStrings s.now cs × (first + count ≤ length cs) }
    ensures { (cs : List Content) → AreStrings s.now cs → first + count ≤ length cs
        → column_of result ≡ take count (drop first cs) }
{
    let strings = Strings {
        views: s.views.values_in(first, count),
        buffers: Buffers::One(s.bytes.as_slice()),
    };
    Column {
        items: string_items(s.kind, &strings),
        validity: ValidRows::Flags(s.views.flags_in(first, count)),
    }
}

impl ZoneColumn {
    ghost use Rattle.std.specs.Prelude.{◌≡◌, ◌≤◌, ◌+◌, List, length, take, drop, IfSome};
    ghost use Rattle.vortex_model.specs.Content.{Content};
    ghost use Rattle.vortex_stats_mask.specs.Columns.{column_of};
    ghost use Rattle.vortex_table_zonemaps.specs.Column.{IsColumnOf};

    /// The values of `count` neighbouring zones, where they are held.
    pub fn slice<'a>(&'a self, first: usize, count: usize) -> Option<Column<'a>>
        requires { (cs : List Content) × IsColumnOf self.now cs × (first + count ≤ length cs) }
        ensures { (cs : List Content) → IsColumnOf self.now cs → first + count ≤ length cs
            → IfSome result (λ column. column_of column ≡ take count (drop first cs)) }
    {
        match self {
            ZoneColumn::Bools(known) => Some(bools_in(known, first, count)),
            ZoneColumn::Integers(known) => Some(integers_in(known, first, count)),
            ZoneColumn::Strings(views) => Some(strings_in(views, first, count)),
            ZoneColumn::Other => None,
        }
    }
}
