//! A table of columns that is held in chunks with bounds: scans skip the chunks that bounds show to
//! hold no row, and [`run::run`] serves a table line by line.
//!
//! One crate for a program to depend on: the types, the values, the arrays, the predicates, the
//! table and the run of commands, each in a module of its own.
#![tactic(auto)]

/// Types of columns, paths to their parts, and the messages in which they cross a boundary.
pub mod dtype {
    pub use vortex_dtype_core::dtype::DType;
    pub use vortex_dtype_core::extension::ExtDTypeRef;
    pub use vortex_dtype_core::map_dtype::MapDType;
    pub use vortex_dtype_core::struct_fields::{StructField, StructFields};
    pub use vortex_dtype_core::union_variants::{UnionVariant, UnionVariants};
    pub use vortex_dtype_core::{BufferString, ByteBuffer};
    pub use vortex_dtype_decimal::decimal_type::DecimalType;
    pub use vortex_dtype_decimal::native::{
        DecimalTypeDowncast, DecimalTypeUpcast, NativeDecimalType,
    };
    pub use vortex_dtype_decimal::precision_scale::PrecisionScale;
    pub use vortex_dtype_fields::dtype_ext::DTypeExt;
    pub use vortex_dtype_fields::field_dtype::{FieldDType, FieldDTypesIter, FieldTypesIter};
    pub use vortex_dtype_fields::map_dtype_ext::MapDTypeExt;
    pub use vortex_dtype_fields::native_dtype::NativeDType;
    pub use vortex_dtype_fields::struct_fields_ext::StructFieldsExt;
    pub use vortex_dtype_fields::union_variants_ext::UnionVariantsExt;
    pub use vortex_dtype_fields::variants_iter::VariantsIter;
    pub use vortex_dtype_native::downcast::{PTypeDowncast, PTypeDowncastExt, PTypeUpcast};
    pub use vortex_dtype_native::little_endian::{ToBytes, TryFromBytes};
    pub use vortex_dtype_native::native::{
        IntegerPType, NativePType, OffsetBuilderPType, PhysicalPType, UnsignedPType, offsets,
    };
    pub use vortex_dtype_native::private::Sealed;
    pub use vortex_dtype_native::{
        match_each_integer_ptype, match_each_native_ptype, match_each_signed_integer_ptype,
        match_each_unsigned_integer_ptype,
    };
    pub use vortex_dtype_path::field::Field;
    pub use vortex_dtype_path::field_path;
    pub use vortex_dtype_path::mask::FieldMask;
    pub use vortex_dtype_path::path::FieldPath;
    pub use vortex_dtype_path::path_set::{FieldPathSet, FieldPathSetIter};
    pub use vortex_dtype_proto::ext_dtype::ExtDType;
    pub use vortex_dtype_proto::ext_dtype_ref_ext::ExtDTypeRefExt;
    pub use vortex_dtype_proto::foreign::{ForeignExtDType, ForeignExtMetadata};
    pub use vortex_dtype_proto::message::{Message, MessageKind};
    pub use vortex_dtype_proto::plugin::ExtDTypePlugin;
    pub use vortex_dtype_proto::read::from_proto;
    pub use vortex_dtype_proto::session::DTypeSession;
    pub use vortex_dtype_proto::shape_test::is_shaped;
    pub use vortex_dtype_proto::vtable::{CloneExtVTable, ExtVTable};
    pub use vortex_dtype_proto::write::to_proto;
    pub use vortex_dtype_ptype::decimal::{DecimalDType, MAX_PRECISION, MAX_SCALE};
    pub use vortex_dtype_ptype::error::DTypeError;
    pub use vortex_dtype_ptype::field_names::{FieldName, FieldNames};
    pub use vortex_dtype_ptype::field_names_iter::{FieldNamesIntoIter, FieldNamesIter};
    pub use vortex_dtype_ptype::nullability::Nullability;
    pub use vortex_dtype_ptype::ptype::PType;
}

/// Values with their types: validity, casts, order, and shortened bounds.
pub mod scalar {
    pub use vortex_scalar_builders::constructors::ScalarConstructors;
    pub use vortex_scalar_builders::nested::constructors::NestedScalarConstructors;
    pub use vortex_scalar_builders::private::Sealed;
    pub use vortex_scalar_builders::string_like::StringLike;
    pub use vortex_scalar_builders::truncation::{ScalarTruncation, lower_bound, upper_bound};
    pub use vortex_scalar_convert::defaults::defaults::ScalarDefaults;
    pub use vortex_scalar_convert::ext_dtype_scalar_ext::ExtDTypeScalarExt;
    pub use vortex_scalar_convert::from_scalar::FromScalar;
    pub use vortex_scalar_core::scalar::Scalar;
    pub use vortex_scalar_iter::list_elements_iter::ListElementsIter;
    pub use vortex_scalar_iter::list_scalar_ext::ListScalarExt;
    pub use vortex_scalar_iter::map_entries_iter::MapEntriesIter;
    pub use vortex_scalar_iter::map_keys_iter::MapKeysIter;
    pub use vortex_scalar_iter::map_scalar_ext::MapScalarExt;
    pub use vortex_scalar_iter::map_values_iter::MapValuesIter;
    pub use vortex_scalar_iter::struct_fields_iter::StructFieldsIter;
    pub use vortex_scalar_iter::struct_scalar_ext::StructScalarExt;
    pub use vortex_scalar_iter::union_scalar_ext::UnionScalarExt;
    pub use vortex_scalar_nested::ext_scalar::ExtScalar;
    pub use vortex_scalar_nested::list_scalar::ListScalar;
    pub use vortex_scalar_nested::map_scalar::MapScalar;
    pub use vortex_scalar_nested::nested_views::NestedScalarViews;
    pub use vortex_scalar_nested::struct_scalar::StructScalar;
    pub use vortex_scalar_ops::compare::compare_values;
    pub use vortex_scalar_ops::eq::eq_values;
    pub use vortex_scalar_ops::hash::hash_value;
    pub use vortex_scalar_ops::native_row::{NativeRow, row, rows};
    pub use vortex_scalar_ops::native_value::NativeValue;
    pub use vortex_scalar_value::error::ScalarError;
    pub use vortex_scalar_value::match_each_pvalue;
    pub use vortex_scalar_value::natives::CoercePValue;
    pub use vortex_scalar_value::pvalue::PValue;
    pub use vortex_scalar_value::scalar_value::ScalarValue;
    pub use vortex_scalar_value::union_value::UnionValue;
    pub use vortex_scalar_value::variant_value::VariantValue;
    pub use vortex_scalar_views::binary_scalar::BinaryScalar;
    pub use vortex_scalar_views::bool_scalar::BoolScalar;
    pub use vortex_scalar_views::numeric_operator::NumericOperator;
    pub use vortex_scalar_views::primitive_scalar::PrimitiveScalar;
    pub use vortex_scalar_views::scalar_views::ScalarViews;
    pub use vortex_scalar_views::union_scalar::UnionScalar;
    pub use vortex_scalar_views::utf8_scalar::Utf8Scalar;
    pub use vortex_scalar_views::variant_scalar::VariantScalar;
}

/// Arrays: the rows of a chunk, and rows that are appended as one.
pub mod array {
    pub use vortex_arrays_builder::plain::build_plain;
    pub use vortex_arrays_core::array::ArrayRef;
    pub use vortex_arrays_view::error::ArrayError;
    pub use vortex_table_zones::build_rows;
}

/// Statistics and their precision, predicates over rows, and the proofs over statistics that are
/// made of them.
pub mod expr {
    /// Bound expressions made of others, and placeholders over them.
    pub mod bound {
        pub use vortex_stats_bind::make::{
            and, between, compare, is_nan, is_not_null, is_null, like, lit, not, or, row_count,
            stat,
        };
        pub use vortex_stats_evaluate::bound::{
            all_nan, all_non_nan, all_non_null, all_null, min_max, nan_count, null_count, sum,
        };
    }

    pub use vortex_stats_array::array_stats::ArrayStats;
    pub use vortex_stats_array::of_array::array_stats;
    pub use vortex_stats_bind::bind::bind;
    pub use vortex_stats_bind::bound::BoundColumn;
    pub use vortex_stats_bind::bound::BoundExpression;
    pub use vortex_stats_bind::bound::BoundNode;
    pub use vortex_stats_bind::bound::Operands;
    pub use vortex_stats_bind::stats::StatBinder;
    pub use vortex_stats_bind::stats::bind_stats;
    pub use vortex_stats_bind::stats::bind_stats_in_zones;
    pub use vortex_stats_bind::stats::null_of;
    pub use vortex_stats_bind::value::Value;
    pub use vortex_stats_bound::bound::LowerBound;
    pub use vortex_stats_bound::bound::UpperBound;
    pub use vortex_stats_bound::bound_ord::BoundOrd;
    pub use vortex_stats_bound::intersection::IntersectionResult;
    pub use vortex_stats_bound::precision::Precision;
    pub use vortex_stats_bound::stat_bound::StatBound;
    pub use vortex_stats_bound::stat_bound::StatType;
    pub use vortex_stats_evaluate::evaluate::evaluate;
    pub use vortex_stats_evaluate::evaluate::prove;
    pub use vortex_stats_evaluate::markers::IsConstant;
    pub use vortex_stats_evaluate::markers::IsSorted;
    pub use vortex_stats_evaluate::markers::IsStrictSorted;
    pub use vortex_stats_evaluate::markers::Max;
    pub use vortex_stats_evaluate::markers::Min;
    pub use vortex_stats_evaluate::markers::NaNCount;
    pub use vortex_stats_evaluate::markers::NullCount;
    pub use vortex_stats_evaluate::markers::Sum;
    pub use vortex_stats_evaluate::markers::UncompressedSizeInBytes;
    pub use vortex_stats_evaluate::provider::StatsProvider;
    pub use vortex_stats_evaluate::provider_ext::StatsProviderExt;
    pub use vortex_stats_evaluate::scope::Scope;
    pub use vortex_stats_evaluate::stat_fn::StatFn;
    pub use vortex_stats_evaluate::stat_fn::StatOptions;
    pub use vortex_stats_evaluate::stat_scalar::stat_scalar;
    pub use vortex_stats_evaluate::stats_set_ext::StatsSetExt;
    pub use vortex_stats_expr::aggregate::AggregateFn;
    pub use vortex_stats_expr::bitset::PRUNING_STATS;
    pub use vortex_stats_expr::bitset::as_stat_bitset_bytes;
    pub use vortex_stats_expr::bitset::stats_from_bitset_bytes;
    pub use vortex_stats_expr::bitset::written_statistics_are_read;
    pub use vortex_stats_expr::collect::and_collect;
    pub use vortex_stats_expr::collect::or_collect;
    pub use vortex_stats_expr::error::StatsError;
    pub use vortex_stats_expr::expression::Expression;
    pub use vortex_stats_expr::expression::Node;
    pub use vortex_stats_expr::expression::and;
    pub use vortex_stats_expr::expression::between;
    pub use vortex_stats_expr::expression::binary;
    pub use vortex_stats_expr::expression::col;
    pub use vortex_stats_expr::expression::column;
    pub use vortex_stats_expr::expression::column_at;
    pub use vortex_stats_expr::expression::eq;
    pub use vortex_stats_expr::expression::gt;
    pub use vortex_stats_expr::expression::gt_eq;
    pub use vortex_stats_expr::expression::is_nan;
    pub use vortex_stats_expr::expression::is_not_null;
    pub use vortex_stats_expr::expression::is_null;
    pub use vortex_stats_expr::expression::like;
    pub use vortex_stats_expr::expression::lit;
    pub use vortex_stats_expr::expression::lt;
    pub use vortex_stats_expr::expression::lt_eq;
    pub use vortex_stats_expr::expression::not;
    pub use vortex_stats_expr::expression::not_eq;
    pub use vortex_stats_expr::expression::or;
    pub use vortex_stats_expr::expression::root;
    pub use vortex_stats_expr::expression::row_count;
    pub use vortex_stats_expr::expression::stat;
    pub use vortex_stats_expr::operator::Comparison;
    pub use vortex_stats_expr::operator::Operator;
    pub use vortex_stats_expr::options::BetweenOptions;
    pub use vortex_stats_expr::options::LikeOptions;
    pub use vortex_stats_expr::options::StrictComparison;
    pub use vortex_stats_expr::placeholders::all_nan;
    pub use vortex_stats_expr::placeholders::all_non_nan;
    pub use vortex_stats_expr::placeholders::all_non_null;
    pub use vortex_stats_expr::placeholders::all_null;
    pub use vortex_stats_expr::placeholders::min_max;
    pub use vortex_stats_expr::placeholders::nan_count;
    pub use vortex_stats_expr::placeholders::null_count;
    pub use vortex_stats_expr::placeholders::sum;
    pub use vortex_stats_expr::scalar_fn::ScalarFnId;
    pub use vortex_stats_expr::stat::Stat;
    pub use vortex_stats_expr::stat_iter::StatIter;
    pub use vortex_stats_mask::column::Column;
    pub use vortex_stats_mask::column::Items;
    pub use vortex_stats_mask::column::Numbers;
    pub use vortex_stats_mask::column::Strings;
    pub use vortex_stats_mask::column::ValidRows;
    pub use vortex_stats_mask::compare::compare_literal;
    pub use vortex_stats_mask::pairs::compare_columns;
    pub use vortex_stats_match::buffers::Buffers;
    pub use vortex_stats_match::like::has_backslash;
    pub use vortex_stats_match::like::is_like;
    pub use vortex_stats_pruner::pruner::Pruner;
    pub use vortex_stats_rules::laws::comparisons_are_visited_once;
    pub use vortex_stats_rules::laws::falsifiers_are_sound;
    pub use vortex_stats_rules::laws::satisfiers_are_sound;
    pub use vortex_stats_rules::meter::Meter;
    pub use vortex_stats_rules::negation::Never;
    pub use vortex_stats_rules::negation::NotLiteral;
    pub use vortex_stats_rules::null_comparison::NullComparison;
    pub use vortex_stats_rules::push_not::PushNot;
    pub use vortex_stats_rules::rewrite::falsify;
    pub use vortex_stats_rules::rewrite::satisfy;
    pub use vortex_stats_rules::rule::StatsRewriteRule;
    pub use vortex_stats_rules::rule::StatsRewriteRuleRef;
    pub use vortex_stats_set::stats_set::StatsArray;
    pub use vortex_stats_set::stats_set::StatsSet;
    pub use vortex_stats_set::stats_set::StatsSetIntoIter;
    pub use vortex_stats_set::typed::MutTypedStatsSetRef;
    pub use vortex_stats_set::typed::TypedStatsSetRef;
}

/// Types, values, rows, predicates, descriptions and answers as JSON, and types, predicates and
/// rows from lines of JSON.
pub mod json {
    pub use vortex_table_request::ParseError;
    pub use vortex_table_text::laws::{
        predicates_are_read_back, types_are_read_back, values_are_read_back,
    };
    pub use vortex_table_text::{
        Shown, TextError, ToText, descriptions_have_their_text, push_lines, read_lines,
        read_predicate, read_type, split_line, type_line,
    };
}

/// Laws of tables: of scans as they are defined, and functions that make the calls of their laws.
pub mod laws {
    pub use vortex_model_laws::laws::{
        descriptions_are_honest, exactly_the_hopeless_are_skipped, groups_change_nothing,
        skipped_chunks_hold_none,
    };
    pub use vortex_table_laws::laws::{
        PartScans, Retypes, compact_two_tables, parts_answer_as_the_whole, retype_in_two_steps,
        scan_around_append, scan_around_compact, scan_by_false, scan_by_true, scan_by_two_lists,
        scan_parts, scan_two_tables,
    };
}

/// The table of chunks, its refusals, what a scan finds, and the description of a column.
pub mod table {
    pub use vortex_stats_bound::precision::Precision;
    pub use vortex_table_run::Table;
    pub use vortex_table_schema::answer::ScanAnswer;
    pub use vortex_table_schema::description::Description;
    pub use vortex_table_schema::error::TableError;
    pub use vortex_table_schema::layout::Layout;
    pub use vortex_table_schema::type_fault::{TypeFault, type_fault};
    pub use vortex_table_select::selection::{LazyAnswer, ScanSelection, Selection};
    pub use vortex_table_zones::{zone_dtype, zone_of};
}

/// Commands in lines of JSON, and their answers.
pub mod run {
    pub use vortex_table_io::{
        Call, LineHandler, MemorySink, MemorySource, Response, RunError, ShortText, Sink, Source,
        Tap, is_one_line, run_lines, split_at_lf,
    };
    pub use vortex_table_response::bad_line;
    pub use vortex_table_run::commands::run;
    pub use vortex_table_run::session::Session;
}
