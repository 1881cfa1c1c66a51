//! Partitions of the rows of a column, each with its number and the statistics of its rows.
ghost use Rattle.std.specs.Prelude.{◌≡◌, [], None, is_some, IfOk, IfErr, option_map, position};
ghost use Rattle.vortex_dtype_core.specs.View.{type_of};
ghost use Rattle.vortex_stats_expr.specs.declared.error.StatsError.TheVariants.{Memory};
ghost use Rattle.vortex_stats_set.specs.Known.{raw_pairs};
ghost use Rattle.example_catalogue.specs.Calls.{Adds, AddsRows, AddsSet, Joins, JoinsRows, JoinsSets};
ghost use Rattle.example_catalogue.specs.Calls.{TellsRows, TellsSets, TellAlike};
ghost use Rattle.example_catalogue.specs.Catalogued.{partitions, kind};
ghost use Rattle.example_catalogue.specs.Made.{AreMerged, answer, one_more};
ghost use Rattle.example_catalogue.specs.Partitions.{is_at, at_number, placed, dropped, between};
ghost use Rattle.example_catalogue.specs.Promises.{IsLost, KeepsHonest, KeepsMade};

use crate::error::CatalogueError;
use std::alloc::Global;
use vortex_dtype::DType;
use vortex_scalar::ScalarValue;
use vortex_stats::laws::{unordered_merges_are_honest, valid_sets_count_nulls};
use vortex_stats::{Precision, Stat, StatsError, StatsSet};

/// The partitions of the rows of a column of one type, by number, each with its statistics.
#[derive(Drop)]
pub struct Catalogue {
    dtype: DType,
    partitions: Vec<(u64, StatsSet)>,
}

impl Catalogue {
    /// The catalogue of no partitions of a column of this type.
    pub fn new(alloc: Global, dtype: DType) -> Catalogue
        ensures partitions { partitions result ≡ [] }
        ensures kind { kind result ≡ type_of dtype }
    {
        let partitions = Vec::new(alloc);
        Catalogue { dtype, partitions }
    }

    fn position(&self, number: u64) -> Option<usize>
        ensures { result ≡ position (is_at number) self.now.partitions.items }
    {
        let partitions = self.partitions.as_slice();
        partitions
            .iter()
            .position(|partition| partition.0 == number)
    }

    /// The statistics of the partition of the number.
    #[tactic(auto, using(crate::proofs::Found::found))]
    pub fn partition(&self, number: u64) -> Option<&StatsSet>
        ensures { option_map (λ set. raw_pairs set.now) result
            ≡ at_number (partitions self.now) number }
    {
        match self.position(number) {
            Some(i) => Some(&self.partitions[i].1),
            None => None,
        }
    }

    /// Adds a partition of a new number, with the statistics of its rows.
    pub fn add(&mut self, number: u64, set: StatsSet) -> Result<(), CatalogueError>
        ensures adds { Adds self.old self.new number set result }
        ensures honest { AddsRows self.old self.new number set result }
        ensures made { AddsSet self.old self.new number set result }
    {
        valid_sets_count_nulls();
        self.put_in(number, set)
    }

    #[tactic(auto, using(crate::proofs::Found::found))]
    fn put_in(&mut self, number: u64, set: StatsSet) -> Result<(), CatalogueError>
        ensures { Adds self.old self.new number set result }
    {
        if self.partition(number).is_some() {
            return Err(CatalogueError::Taken);
        }
        if !set.is_valid_for(&self.dtype) {
            return Err(CatalogueError::Stats(StatsError::InvalidStat));
        }
        match self.partitions.push((number, set)) {
            Ok(()) => Ok(()),
            Err(failed) => Err(CatalogueError::Stats(StatsError::from(failed))),
        }
    }

    /// Drops the partition of the number, and answers whether there was one.
    #[tactic(auto, using(crate::proofs::Found::found))]
    pub fn drop_partition(&mut self, number: u64) -> bool
        ensures kind { kind self.new ≡ kind self.old }
        ensures dropped { partitions self.new ≡ dropped (partitions self.old) number }
        ensures found { result ≡ is_some (at_number (partitions self.old) number) }
        ensures honest { KeepsHonest (partitions self.old) (partitions self.new)
            (λ rows. dropped rows number) }
        ensures made { KeepsMade (kind self.old) (partitions self.old) (partitions self.new)
            (λ sets. dropped sets number) }
    {
        match self.position(number) {
            Some(i) => {
                let _dropped = self.partitions.remove(i);
                true
            }
            None => false,
        }
    }

    /// Merges the second partition into the first, which has the rows of both from then on.
    pub fn merge_partitions(&mut self, into: u64, from: u64) -> Result<(), CatalogueError>
        ensures joins { Joins self.old self.new into from result }
        ensures honest { JoinsRows self.old self.new into from result }
        ensures made { JoinsSets self.old self.new into from result }
    {
        unordered_merges_are_honest();
        self.join(into, from)
    }

    fn join(&mut self, into: u64, from: u64) -> Result<(), CatalogueError>
        ensures { Joins self.old self.new into from result }
    {
        if into == from {
            return Err(CatalogueError::Same);
        }
        let set = self.merged(into, from)?;
        self.place(into, set);
        self.drop_partition(from);
        Ok(())
    }

    fn merged(&self, into: u64, from: u64) -> Result<StatsSet, CatalogueError>
        ensures ok { IfOk result (λ set. AreMerged (at_number (partitions self.now) into)
            (at_number (partitions self.now) from) (raw_pairs set)) }
        ensures refused { IfErr result (IsLost (partitions self.now) into from) }
    {
        match (self.partition(into), self.partition(from)) {
            (Some(left), Some(right)) => {
                let copy = self.one_more(None, left)?;
                let set = self.one_more(Some(copy), right)?;
                Ok(set)
            }
            (Some(_), None) | (None, Some(_)) | (None, None) => Err(CatalogueError::Missing),
        }
    }

    #[tactic(auto, using(crate::proofs::Found::found))]
    fn place(&mut self, number: u64, set: StatsSet)
        ensures kind { kind self.new ≡ kind self.old }
        ensures placed { partitions self.new ≡ placed (partitions self.old) number (raw_pairs set) }
    {
        if let Some(i) = self.position(number) {
            if let Some(partition) = self.partitions.get_mut(i) {
                partition.1 = set;
            }
        }
    }

    /// The statistics of all rows of the partitions from one number to before another.
    pub fn statistics(&self, alloc: Global, from: u64, to: u64) -> Result<StatsSet, StatsError>
        ensures value { IfOk result (λ set. raw_pairs set
            ≡ answer (between from to (partitions self.now))) }
        ensures honest { IfOk result (TellsRows self.now from to) }
        ensures made { IfOk result (TellsSets self.now from to) }
        ensures refused { IfErr result (λ e. e ≡ Memory) }
    {
        unordered_merges_are_honest();
        self.answer(alloc, from, to)
    }

    fn answer(&self, alloc: Global, from: u64, to: u64) -> Result<StatsSet, StatsError>
        ensures value { IfOk result (λ set. raw_pairs set
            ≡ answer (between from to (partitions self.now))) }
        ensures refused { IfErr result (λ e. e ≡ Memory) }
    {
        let mut all = None;
        for partition in &self.partitions {
            if from <= partition.0 && partition.0 < to {
                all = Some(self.one_more(all, &partition.1)?);
            }
        }
        if let Some(set) = all {
            return Ok(set);
        }
        let none: u64 = 0;
        let none = Precision::Exact(ScalarValue::from(none));
        Ok(StatsSet::of(alloc, Stat::NullCount, none))
    }

    fn one_more(&self, all: Option<StatsSet>, set: &StatsSet) -> Result<StatsSet, StatsError>
        ensures value { IfOk result (λ more. raw_pairs more
            ≡ one_more (option_map raw_pairs all) (raw_pairs set.now)) }
        ensures refused { IfErr result (λ e. e ≡ Memory) }
    {
        match all {
            Some(all) => all.merge_unordered(set, &self.dtype),
            None => Ok(set.clone()?),
        }
    }
}

/// The statistics of one range by two catalogues. They know the same least value, greatest value
/// and null count where the partitions of the range are made of the same sets, in whatever order
/// these were added and merged.
pub fn ask_both(
    alloc: Global,
    first: &Catalogue,
    second: &Catalogue,
    from: u64,
    to: u64,
) -> Result<(StatsSet, StatsSet), StatsError>
    ensures alike { IfOk result (λ both. TellAlike first.now from to second.now both.0 both.1) }
    ensures refused { IfErr result (λ e. e ≡ Memory) }
{
    let answer = first.statistics(alloc, from, to)?;
    let other = second.statistics(alloc, from, to)?;
    Ok((answer, other))
}
