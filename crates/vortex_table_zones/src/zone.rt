//! The zone of a group, by what is described of its columns.
ghost use Rattle.std.specs.Prelude.{◌≡◌, ◌++◌, [], ◌∷◌, length, nat_lt, IfOk, IfErr, IsTrue};
ghost use Rattle.vortex_model.specs.LogicalType.{LogicalType};
ghost use Rattle.vortex_model.specs.Content.{content_of, contents_of};
ghost use Rattle.vortex_model.specs.Path.{name};
ghost use Rattle.vortex_model.specs.Refusal.{no_such_group};
ghost use Rattle.vortex_model.specs.Valid.{valid, fields_have};
ghost use Rattle.vortex_model_table.specs.Command.{positions_of, unless};
ghost use Rattle.vortex_model_table.specs.Scan.{kind_at};
ghost use Rattle.vortex_model_table.specs.Statistics.{shown};
ghost use Rattle.vortex_dtype_core.specs.View.{type_of, fields_of};
ghost use Rattle.vortex_dtype_path.specs.View.{steps_of};
ghost use Rattle.vortex_scalar_value.specs.View.{raw_of, raw_in, raws_in, content_in};
ghost use Rattle.vortex_table_schema.specs.Description.{known_content};
ghost use Rattle.vortex_table_schema.specs.Error.{Explains};
ghost use Rattle.vortex_table_schema.specs.declared.error.TableError.TheVariants as error;
ghost use Rattle.vortex_table_core.specs.TableView.{table_of};
ghost use Rattle.vortex_table_plan.specs.Described.{IsOfLeaf};
ghost use Rattle.vortex_table_zones.specs.Types.{leaf_known, known_type, known_fields, zone_type};
ghost use Rattle.vortex_table_zones.specs.Zone.{known_of, is_count, IsOfKnown, IsTold, IsOfEach, AreOfEach, LeadsTo, LeadsToFields, IsZoneOf};

use crate::statistic::Statistic;
use std::alloc::{AllocError, Global};
use vortex_dtype_core::dtype::DType;
use vortex_dtype_core::struct_fields::StructField;
use vortex_dtype_path::field::Field;
use vortex_dtype_path::path::FieldPath;
use vortex_dtype_ptype::field_names::FieldName;
use vortex_scalar_core::scalar::Scalar;
use vortex_scalar_value::scalar_value::ScalarValue;
use vortex_stats_bound::precision::Precision;
use vortex_table_core::table::Table;
use vortex_table_schema::description::Description;
use vortex_table_schema::error::TableError;

fn value_of(known: Precision<Scalar>) -> Option<ScalarValue>
    ensures content { content_in result ≡ shown (known_content known) }
    ensures valid { IsOfKnown known (raw_in result) }
{
    match known {
        Precision::Exact(value) => value.into_value(),
        Precision::Inexact(value) => value.into_value(),
        Precision::Absent => None,
    }
}

#[tactic(auto, using(crate::proofs::ValidZones::statistics))]
fn statistic_of(description: Description, statistic: Statistic) -> Option<ScalarValue>
    ensures content { content_in result ≡ known_of statistic description }
    ensures valid { (k : LogicalType) → IsOfLeaf k description
        → IsTrue (valid (leaf_known (is_count statistic) k) (raw_in result)) }
{
    match statistic {
        Statistic::Lower => value_of(description.min),
        Statistic::Upper => value_of(description.max),
        Statistic::NullCount => value_of(description.null_count),
    }
}

// What is described of the column of a path, and null where no leaf column is there.
#[tactic(auto, using(crate::proofs::ZoneLemmas::described))]
fn column_value(
    alloc: Global,
    table: &Table,
    group: usize,
    path: &FieldPath,
    statistic: Statistic,
) -> Result<Option<ScalarValue>, TableError>
    ensures told { IfOk result (λ value. IsTold (table_of table.now) group statistic
        (steps_of path.now) (content_in value)) }
    ensures valid { IfOk result (λ value. IsTrue (valid (leaf_known (is_count statistic)
        (kind_at (table_of table.now).kind (positions_of (table_of table.now).kind
        (steps_of path.now)))) (raw_in value))) }
    ensures memory { IfErr result (λ e. e ≡ error.Memory) }
{
    match table.describe(alloc, path, group) {
        Ok(description) => Ok(statistic_of(description, statistic)),
        Err(TableError::Memory) => Err(TableError::Memory),
        Err(_) => Ok(None),
    }
}

fn path_to(path: &FieldPath, field: &FieldName) -> Result<FieldPath, AllocError>
    ensures { IfOk result (λ new. steps_of new ≡ steps_of path.now ++ name field.now ∷ []) }
{
    let mut path = path.clone()?;
    path.push(Field::Name(field.clone()?))?;
    Ok(path)
}

// What is described of each leaf column below a path, in records as the rows are.
#[cycle(columns)]
#[tactic(auto, using(crate::proofs::ZoneLemmas::columns))]
fn columns_value(
    alloc: Global,
    table: &Table,
    group: usize,
    path: &FieldPath,
    dtype: &DType,
    statistic: Statistic,
) -> Result<Option<ScalarValue>, TableError>
    requires { LeadsTo (table_of table.now).kind (steps_of path.now) (type_of dtype.now) }
    ensures told { IfOk result (λ value. IsOfEach (IsTold (table_of table.now) group statistic)
        (steps_of path.now) (type_of dtype.now) (content_in value)) }
    ensures valid { IfOk result (λ value. IsTrue
        (valid (known_type (is_count statistic) (type_of dtype.now)) (raw_in value))) }
    ensures memory { IfErr result (λ e. e ≡ error.Memory) }
{
    match dtype.as_struct_fields_opt() {
        Some(fields) => {
            let fields = fields.as_slice();
            let values = fields_values(alloc, table, group, path, fields, statistic)?;
            Ok(Some(ScalarValue::Tuple(values)))
        }
        None => {
            if !dtype.is_leaf() {
                return Ok(None);
            }
            let value = column_value(alloc, table, group, path, statistic)?;
            Ok(value)
        }
    }
}

#[cycle(columns)]
fn fields_values(
    alloc: Global,
    table: &Table,
    group: usize,
    path: &FieldPath,
    fields: &[StructField],
    statistic: Statistic,
) -> Result<Vec<Option<ScalarValue>>, TableError>
    requires { LeadsToFields (table_of table.now).kind (steps_of path.now) (fields_of fields.now) }
    ensures told { IfOk result (λ values. AreOfEach (IsTold (table_of table.now) group statistic)
        (steps_of path.now) (fields_of fields.now) (contents_of (raws_in values.items))) }
    ensures valid { IfOk result (λ values. IsTrue (fields_have
        (known_fields (is_count statistic) (fields_of fields.now)) (raws_in values.items))) }
    ensures memory { IfErr result (λ e. e ≡ error.Memory) }
{
    let mut values = Vec::new(alloc);
    for field in fields {
        let path = path_to(path, &field.name)?;
        let value = columns_value(alloc, table, group, &path, &field.dtype, statistic)?;
        values.push(value)?;
    }
    Ok(values)
}

/// The zone of a group, a value of the type that `zone_dtype` gives for the table's: the number of
/// its rows, and what is described of each leaf column: its bounds, which may be shortened, and its
/// null count. Null is what isn't known, and all of a column of lists.
///
/// Refused where there is no such group: `NoSuchGroup`.
#[tactic(auto, using(crate::proofs::ZoneLemmas::zone))]
pub fn zone_of(alloc: Global, table: &Table, group: usize) -> Result<ScalarValue, TableError>
    ensures zone { IfOk result (λ zone. IsZoneOf (table_of table.now) group
        (content_of (raw_of zone))) }
    ensures valid { IfOk result
        (λ zone. IsTrue (valid (zone_type (table_of table.now).kind) (raw_of zone))) }
    ensures refused { IfErr result (λ e. Explains ⊥
        (unless (nat_lt group (length (table_of table.now).groups)) no_such_group) e) }
{
    let Some(rows) = table.group_len(group) else {
        return Err(TableError::NoSuchGroup);
    };
    let count = ScalarValue::from(rows as u64);
    let dtype = table.dtype();
    let root = FieldPath::root(alloc);
    let lower = columns_value(alloc, table, group, &root, dtype, Statistic::Lower)?;
    let upper = columns_value(alloc, table, group, &root, dtype, Statistic::Upper)?;
    let nulls = columns_value(alloc, table, group, &root, dtype, Statistic::NullCount)?;
    let values = vec![in alloc; Some(count), lower, upper, nulls]?;
    Ok(ScalarValue::Tuple(values))
}
