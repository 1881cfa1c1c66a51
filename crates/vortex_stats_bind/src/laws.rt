//! What binding keeps.
ghost use Rattle.vortex_stats_bind.specs.Replaced.{BindingKeepsValues};

/// Binding a proof to a source of statistics that answers what has their values keeps the proof's
/// value, as that of `bind_stats`. Callers cite it for the source that they have.
#[tactic(auto, using(crate::proofs::ReplacedValues::keeping))]
pub fn binding_keeps_values()
    ensures { BindingKeepsValues }
{}
