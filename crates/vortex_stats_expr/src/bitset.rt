//! Statistics written as bits, by which a file shows which of them it holds.
ghost use Rattle.std.specs.Prelude.{◌≡◌, ◌≢◌, ◌<◌, ◌*◌, ℕ, true, length, IfOk, IfErr};
ghost use Rattle.vortex_stats_expr.specs.declared.error.StatsError.TheVariants.{Memory};
ghost use Rattle.vortex_stats_expr.specs.declared.bitset.TheConstants.{PRUNING_STATS};
ghost use Rattle.vortex_stats_expr.specs.Stats.{number_of_stat, pruning_stats};
ghost use Rattle.vortex_stats_expr.specs.Bitsets.{IsBitset, has_bit, stats_in, distinct_by_number};

use crate::error::StatsError;
use crate::stat::Stat;
use std::alloc::Global;

/// The statistics that let a reader skip rows, as Vortex's `PRUNING_STATS`.
pub const PRUNING_STATS: &[Stat] = &[
    Stat::Min,
    Stat::Max,
    Stat::Sum,
    Stat::NullCount,
    Stat::NaNCount,
];

/// `PRUNING_STATS` has these five, in this order.
pub fn pruning_statistics_are_five()
    ensures { PRUNING_STATS.now ≡ pruning_stats }
{}

/// Two bytes with a bit for each statistic, the lowest bit first, as Vortex's
/// `as_stat_bitset_bytes`.
#[tactic(auto, using(crate::proofs::Written::written))]
pub fn as_stat_bitset_bytes(alloc: Global, stats: &[Stat]) -> Result<Vec<u8>, StatsError>
    ensures value { IfOk result (λ bytes. IsBitset stats.now bytes.items) }
    ensures refused { IfErr result (λ e. e ≡ Memory) }
{
    let mut bytes = vec![in alloc; 0; 2]?;
    for stat in stats {
        set_bit(&mut bytes, usize::from(u8::from(*stat)));
    }
    Ok(bytes)
}

/// The statistics whose bits are set, by number. Bits of no statistic, as those that a later
/// version may set, are passed over, as by Vortex's `stats_from_bitset_bytes`.
pub fn stats_from_bitset_bytes(alloc: Global, bytes: &[u8]) -> Result<Vec<Stat>, StatsError>
    ensures value { IfOk result (λ stats. stats.items ≡ stats_in bytes.now) }
    ensures refused { IfErr result (λ e. e ≡ Memory) }
{
    let mut stats = Vec::new(alloc);
    for stat in Stat::all() {
        let among = is_set(bytes, usize::from(u8::from(stat)));
        if among {
            stats.push(stat)?;
        }
    }
    Ok(stats)
}

/// What was written is read as the statistics of the list, each once and by number.
#[tactic(auto, using(crate::proofs::Written::read_as_written))]
pub fn written_statistics_are_read(
    alloc: Global,
    stats: &[Stat],
) -> Result<(Vec<u8>, Vec<Stat>), StatsError>
    ensures written { IfOk result (λ both. IsBitset stats.now both.0.items) }
    ensures read { IfOk result (λ both. both.1.items ≡ stats_in both.0.items) }
    ensures same { IfOk result (λ both. both.1.items ≡ distinct_by_number stats.now) }
    ensures refused { IfErr result (λ e. e ≡ Memory) }
{
    let bytes = as_stat_bitset_bytes(alloc, stats)?;
    let read = stats_from_bitset_bytes(alloc, &bytes)?;
    Ok((bytes, read))
}

// Bytes after the last are 0.
#[tactic(auto, using(crate::proofs::BitLemmas::bit_read))]
fn is_set(bytes: &[u8], i: usize) -> bool
    ensures { result ≡ has_bit bytes.now i }
{
    match bytes.get(i / 8) {
        Some(byte) => (*byte >> (i % 8)) & 1 == 1,
        None => false,
    }
}

#[tactic(auto, using(crate::proofs::BitLemmas::bit_set))]
fn set_bit(bytes: &mut [u8], i: usize)
    requires { i < 8 * length bytes.old }
    ensures set { has_bit bytes.new i ≡ true }
    ensures others { (j : ℕ) → j ≢ i → has_bit bytes.new j ≡ has_bit bytes.old j }
    ensures length { length bytes.new ≡ length bytes.old }
{
    bytes[i / 8] |= 1 << (i % 8);
}
