//! Runs of neighbouring elements, each copied as one range.
ghost use Rattle.std.specs.Prelude.{◌≡◌, ◌≤◌, ◌+◌, ◌*◌, ◌++◌, [], length, take, IfOk, IfErr, IfSome, OnOk};
ghost use Rattle.std.specs.List.{range_with_len};
ghost use Rattle.vortex_arrays_rebuild.specs.Runs.{
  elements_at,
  positions_of,
  positions_in,
  FitWithin,
  LiesWithin,
  IsLengthFault,
};

use std::alloc::{AllocError, Global};
use vortex_arrays_view::error::ArrayError;

/// Neighbouring elements: the first, and their number.
#[derive(Clone, Copy, Drop)]
pub(crate) struct Run {
    pub(crate) start: usize,
    pub(crate) len: usize,
}

/// Runs in the order in which they are copied, the number of their elements, and the number of all
/// elements.
#[derive(Drop)]
pub(crate) struct Runs {
    pub(crate) list: Vec<Run>,
    pub(crate) len: usize,
    pub(crate) limit: usize,
    ghost counted: { len ≡ length (positions_in list.items) },
    ghost within: { FitWithin limit list.items },
}

/// The runs of lists that are added one by one. The last run stays open: a list that begins at its
/// end extends it, and an empty list changes nothing.
#[derive(Drop)]
pub(crate) struct RunsBuilder {
    pub(crate) limit: usize,
    pub(crate) done: Vec<Run>,
    pub(crate) last: Run,
    pub(crate) len: usize,
    ghost done_within: { FitWithin limit done.items },
    ghost last_within: { LiesWithin limit last },
    ghost counted: { len ≡ length (positions_in done.items ++ positions_of last) },
}

impl RunsBuilder {
    /// No runs yet, of `limit` elements.
    #[tactic(auto, using(crate::proofs::RunLemmas::runs))]
    pub(crate) fn new(alloc: Global, limit: usize) -> RunsBuilder
        ensures limit { result.limit ≡ limit }
        ensures none { positions_in result.done.items ++ positions_of result.last ≡ [] }
    {
        RunsBuilder {
            limit,
            done: Vec::new(alloc),
            last: Run { start: 0, len: 0 },
            len: 0,
        }
    }

    /// Adds the elements of a list. `Total` where the runs would have 2^64 elements or more.
    #[tactic(auto, using(crate::proofs::RunLemmas::runs))]
    pub(crate) fn add(&mut self, start: usize, len: usize) -> Result<(), ArrayError>
        requires { start + len ≤ self.old.limit }
        ensures limit { self.new.limit ≡ self.old.limit }
        ensures positions { OnOk result (positions_in self.new.done.items
            ++ positions_of self.new.last
            ≡ (positions_in self.old.done.items ++ positions_of self.old.last)
            ++ range_with_len start len) }
        ensures refused { IfErr result (λ e. IsLengthFault e (self.old.len + len)) }
    {
        let total = match self.len.checked_add(len) {
            Some(total) => total,
            None => return Err(ArrayError::Total),
        };
        if len == 0 {
            return Ok(());
        }
        if start == self.last.start + self.last.len {
            self.last.len += len;
        } else {
            if self.last.len > 0 {
                let run = self.last;
                self.done.push(run)?;
            }
            self.last = Run { start, len };
        }
        self.len = total;
        Ok(())
    }

    /// All runs, in the order of their lists.
    #[tactic(auto, using(crate::proofs::RunLemmas::runs))]
    pub(crate) fn finish(self) -> Result<Runs, AllocError>
        ensures positions { IfOk result (λ runs. positions_in runs.list.items
            ≡ positions_in self.done.items ++ positions_of self.last) }
        ensures limit { IfOk result (λ runs. runs.limit ≡ self.limit) }
    {
        let last = self.last;
        let len = self.len;
        let limit = self.limit;
        let mut list = self.done;
        if last.len > 0 {
            list.push(last)?;
        }
        Ok(Runs { list, len, limit })
    }
}

impl Runs {
    /// The runs of the elements of fixed-size lists, for runs of such lists, where all lists have
    /// `count` elements. `None` where the runs have 2^64 elements or more.
    #[tactic(auto, using(crate::proofs::ScaledLemmas::scaled))]
    pub(crate) fn of_elements(
        &self,
        alloc: Global,
        size: usize,
        count: usize,
    ) -> Result<Option<Runs>, AllocError>
        requires { count ≡ self.now.limit * size }
        ensures positions { IfOk result (λ found. IfSome found (λ runs.
            positions_in runs.list.items ≡ elements_at size (positions_in self.now.list.items))) }
        ensures limit { IfOk result (λ found. IfSome found (λ runs. runs.limit ≡ count)) }
    {
        let len = match self.len.checked_mul(size) {
            Some(len) => len,
            None => return Ok(None),
        };
        let mut list = vec![in alloc; Run { start: 0, len: 0 }; self.list.len()]?;
        for i in 0..self.list.len() {
            let run = self.list[i];
            list[i] = run.of_elements(size, self.limit, count);
        }
        let limit = count;
        Ok(Some(Runs { list, len, limit }))
    }
}

impl Run {
    // The elements of a run of fixed-size lists.
    #[tactic(auto, using(crate::proofs::ScaledLemmas::element_run))]
    fn of_elements(self, size: usize, lists: usize, count: usize) -> Run
        requires many { count ≡ lists * size }
        requires within { LiesWithin lists self }
        ensures start { result.start ≡ self.start * size }
        ensures len { result.len ≡ self.len * size }
        ensures within { LiesWithin count result }
    {
        let _count = count;
        Run {
            start: self.start * size,
            len: self.len * size,
        }
    }
}

/// The indices of the runs' elements.
#[tactic(auto, using(crate::proofs::PlaceLemmas::placed))]
pub(crate) fn positions_of_runs(alloc: Global, runs: &Runs) -> Result<Vec<u64>, AllocError>
    ensures { IfOk result (λ places. places.items ≡ positions_in runs.now.list.items) }
{
    let mut places = vec![in alloc; 0; runs.len]?;
    let mut next = 0;
    for i in 0..runs.list.len() {
        let run = runs.list[i];
        next = put_positions(&mut places, next, run, runs.limit);
    }
    Ok(places)
}

// Writes the indices of a run's elements to `places` from `at` on, and returns the index after
// them. All of them are below `len`.
fn put_positions(places: &mut Vec<u64>, at: usize, run: Run, len: usize) -> usize
    requires room { at + run.len ≤ length places.old.items }
    requires within { LiesWithin len run }
    ensures front { take (at + run.len) places.new.items
        ≡ take at places.old.items ++ positions_of run }
    ensures same { length places.new.items ≡ length places.old.items }
    ensures next { result ≡ at + run.len }
{
    let _len = len;
    for j in 0..run.len {
        places[at + j] = (run.start + j) as u64;
    }
    at + run.len
}
