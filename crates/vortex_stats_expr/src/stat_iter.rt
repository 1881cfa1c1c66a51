//! The iterator of all statistics, seen as the list of those that are left.
ghost use Rattle.std.specs.Prelude.{◌≡◌, length, Some, IfSome};
ghost use Rattle.std.specs.Iterator.{YieldsFirst, UpTo, item_count};
ghost use Rattle.std.specs.Iterator.SizeHint.{IsWithinCount};

use crate::stat::Stat;
use std::iter::ExactSizeIterator;
use std::marker::Model;

/// Statistics, one after another.
#[derive(Drop)]
pub struct StatIter {
    stats: &'static [Stat],
}

impl Model for StatIter {
    ghost use Rattle.std.specs.Prelude.{List};
    ghost use Rattle.vortex_stats_expr.specs.declared.stat.Stat.{Stat};

    ghost Value = { List Stat };

    ghost view = { λ rest. rest.stats.now };
}

impl StatIter {
    pub(crate) fn new(stats: &'static [Stat]) -> StatIter
        ensures { result ≡ stats.now }
    {
        StatIter { stats }
    }
}

impl Iterator for StatIter {
    type Item = Stat;

    ghost next_gives = { YieldsFirst (λ rest. rest) };

    ghost remaining = { item_count (λ rest. rest) };

    fn next(&mut self) -> Option<Stat> {
        let (first, others) = self.stats.split_first()?;
        self.stats = others;
        Some(*first)
    }

    fn size_hint(&self) -> (usize, Option<usize>)
        ensures lower { IsWithinCount result.0 (item_count (λ rest. rest) self.now) }
        ensures upper { IfSome result.1 (UpTo (item_count (λ rest. rest) self.now)) }
        ensures exact { (result.0 ≡ length self.now) × (result.1 ≡ Some result.0) }
    {
        let len = self.stats.len();
        (len, Some(len))
    }
}

impl ExactSizeIterator for StatIter {
    fn len(&self) -> usize {
        self.stats.len()
    }
}
