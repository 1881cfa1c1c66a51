//! Counts of what scans and rewrites do.
ghost use Rattle.std.specs.Prelude.{◌≡◌};
ghost use Rattle.vortex_stats_rules.specs.Visits.{unused, visited};

/// How much was done: rows tested, proofs evaluated, nodes rewritten. Each count stays at the
/// greatest u64 once it is there.
#[derive(Clone, Copy, Debug, PartialEq, Eq)]
pub struct Meter {
    /// Rows of which a predicate's truth was found.
    pub rows_tested: u64,
    /// Proofs that were evaluated.
    pub proofs: u64,
    /// Nodes that were rewritten.
    pub visits: u64,
}

impl Meter {
    /// A meter that has counted nothing.
    pub fn new() -> Meter
        ensures { result ≡ unused }
    {
        Meter {
            rows_tested: 0,
            proofs: 0,
            visits: 0,
        }
    }

    /// One more node was rewritten.
    #[tactic(auto, using(crate::proofs::Counts::stopped))]
    pub(crate) fn visit(&mut self)
        ensures { self.new ≡ visited 1 self.old }
    {
        self.visits = self.visits.saturating_add(1);
    }
}
