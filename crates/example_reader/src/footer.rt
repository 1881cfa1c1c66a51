//! Footers of files: read, written, made of a table, and the zones that must be read.
ghost use Rattle.std.specs.Prelude.{◌≡◌, Some, None, OnOk, IfOk, IfErr, map, not};
ghost use Rattle.vortex_model.specs.Kept.{type_fault};
ghost use Rattle.vortex_model_rules.specs.Rules.{fals};
ghost use Rattle.vortex_model_table.specs.Reply.{lines};
ghost use Rattle.vortex_dtype_core.specs.View.{type_of};
ghost use Rattle.vortex_arrays_model.specs.Layout.{rows_of};
ghost use Rattle.vortex_stats_rules.specs.Meanings.{rules_of};
ghost use Rattle.vortex_stats_pruner.specs.Pruning.{IsPrunerFault};
ghost use Rattle.vortex_table_schema.specs.Error.{Explains};
ghost use Rattle.vortex_table_core.specs.TableView.{table_of};
ghost use Rattle.vortex_table_zones.specs.Types.{zone_type};
ghost use Rattle.vortex_table_text.specs.Writing.{Writes};
ghost use Rattle.example_reader.specs.Lines.{footer_of, footer_fault, footer_text, IsTooLarge};
ghost use Rattle.example_reader.specs.Written.{IsTyped, AreZonesOf, AreHonestOf, HasTooLargeZones};
ghost use Rattle.example_reader.specs.Zones.{LeavesNoRowOut, is_read};

use crate::columns::{ZoneColumns, row_counts};
use std::alloc::Global;
use vortex_arrays::ArrayRef;
use vortex_dtype::DType;
use vortex_stats::{Expression, Meter, Pruner, StatsError, StatsRewriteRuleRef};
use vortex_table::array::build_rows;
use vortex_table::json::{
    ParseError, TextError, push_lines, read_lines, read_type, split_line, type_line,
};
use vortex_table::laws::descriptions_are_honest;
use vortex_table::table::{Table, TableError, zone_dtype, zone_of};

/// What a reader keeps of a file's footer.
#[derive(Drop)]
pub struct Footer {
    /// The type of the file's rows.
    pub dtype: DType,
    /// The table of zones: for each zone a row, with the fields that `columns` describes.
    pub zones: ArrayRef,
}

impl Footer {
    /// The footer of lines of JSON: a type message of the rows, and then for each zone a value of
    /// the type that `zone_dtype` gives for theirs. Null is a bound or a count that isn't known; a
    /// bound may be shortened.
    ///
    /// Refused, in this order: `UnkeptType` where there is no line or the first is no type message;
    /// where a table can't hold the zones' type, as `type_fault`; `InvalidValue` with the index of
    /// the first zone that is no JSON value of it; `Total` where bounds are too large.
    #[tactic(auto, using(crate::proofs::ReadLemmas::footers))]
    pub fn read(alloc: Global, bytes: &[u8]) -> Result<Footer, TableError>
        ensures made { IfOk result (λ footer. footer_of (lines bytes.now)
            ≡ Some (type_of footer.dtype, rows_of footer.zones)) }
        ensures typed { IfOk result (λ footer. IsTyped footer) }
        ensures accepted { OnOk result (footer_fault (lines bytes.now) ≡ None) }
        ensures refused { IfErr result (λ e. Explains (IsTooLarge (footer_of (lines bytes.now)))
            (footer_fault (lines bytes.now)) e) }
    {
        let Some((first, rest)) = split_line(bytes) else {
            return Err(TableError::UnkeptType);
        };
        let dtype = match read_type(alloc, first) {
            Ok(dtype) => dtype,
            Err(ParseError::Memory) => return Err(TableError::Memory),
            Err(ParseError::Malformed) => return Err(TableError::UnkeptType),
        };
        let zone_dtype = zone_dtype(alloc, &dtype)?;
        let zones = match read_lines(alloc, rest, &zone_dtype) {
            Ok(zones) => zones,
            Err(ParseError::Memory) => return Err(TableError::Memory),
            Err(ParseError::Malformed) => unreachable!(),
        };
        let zones = build_rows(alloc, &zone_dtype, &zones)?;
        Ok(Footer { dtype, zones })
    }

    /// The lines of JSON that `read` reads as this footer, unless a table can't hold its type.
    ///
    /// `TextError::NoText` where the zones aren't of the type that `zone_dtype` gives for the rows'
    /// type, or where `type_line` refuses the rows' type.
    #[tactic(auto, using(crate::proofs::WriteLemmas::footers))]
    pub fn to_lines(&self, alloc: Global) -> Result<Vec<u8>, TextError>
        ensures text { Writes (λ text. text.items) result
            (footer_text (type_of self.now.dtype) self.now.zones) }
        ensures round_trip { IfOk result (λ text. footer_of (lines text.items)
            ≡ Some (type_of self.now.dtype, rows_of self.now.zones)) }
        ensures fault { IfOk result (λ text. footer_fault (lines text.items)
            ≡ type_fault (zone_type (type_of self.now.dtype))) }
    {
        let zone_dtype = zone_dtype(alloc, &self.dtype)?;
        if *self.zones.dtype() != zone_dtype {
            return Err(TextError::NoText);
        }
        let mut text = type_line(alloc, &self.dtype)?;
        push_lines(&mut text, &self.zones)?;
        Ok(text)
    }

    /// The footer of a table: for each group of its chunks the zone that `zone_of` gives. Refused
    /// only where its bounds are too large for an array: `Total`.
    #[tactic(auto, using(crate::proofs::TableZones::all))]
    pub fn of_table(alloc: Global, table: &Table) -> Result<Footer, TableError>
        ensures dtype { IfOk result (λ footer. type_of footer.dtype ≡ (table_of table.now).kind) }
        ensures typed { IfOk result (λ footer. IsTyped footer) }
        ensures zones { IfOk result (λ footer. AreZonesOf (table_of table.now)
            (rows_of footer.zones)) }
        ensures honest { IfOk result
            (λ footer. AreHonestOf (table_of table.now) (rows_of footer.zones)) }
        ensures refused { IfErr result
            (λ e. Explains (HasTooLargeZones (table_of table.now)) None e) }
    {
        // Proves that what is described of a group is true of its rows.
        descriptions_are_honest();
        let mut zones = Vec::new(alloc);
        for group in 0..table.group_count() {
            let zone = zone_of(alloc, table, group)?;
            zones.push(Some(zone))?;
        }
        let dtype = table.dtype().clone()?;
        let zone_dtype = zone_dtype(alloc, &dtype)?;
        let zones = build_rows(alloc, &zone_dtype, &zones)?;
        Ok(Footer { dtype, zones })
    }

    /// Of each zone, whether it must be read for the rows that the predicate selects. Where the
    /// footer is honest of a zone that needn't be read, the predicate selects none of its rows.
    ///
    /// Refused as `Pruner::new` is.
    pub fn zones_to_read(
        &self,
        alloc: Global,
        predicate: &Expression,
        rules: &[StatsRewriteRuleRef],
        meter: &mut Meter,
    ) -> Result<Vec<bool>, StatsError>
        ensures theorem { IfOk result (λ read. LeavesNoRowOut (type_of self.now.dtype)
            predicate.now (rows_of self.now.zones) read.items) }
        ensures exact { IfOk result (λ read. read.items ≡ map (is_read (type_of self.now.dtype)
            (fals (type_of self.now.dtype) (rules_of meaning rules.now) predicate.now))
            (rows_of self.now.zones)) }
        ensures refused { IfErr result (IsPrunerFault (type_of self.now.dtype)
            (rules_of meaning rules.now) predicate.now) }
    {
        let pruner = Pruner::new(alloc, predicate, &self.dtype, rules, meter)?;
        let counts = row_counts(alloc)?;
        let skipped = pruner.none_selected(alloc, &self.zones, &ZoneColumns {}, &counts)?;
        let read = skipped.iter().map(|zone| !*zone).collect(alloc)?;
        Ok(read)
    }
}
