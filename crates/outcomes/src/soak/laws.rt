//! What bars say of the runs that were noted, with nothing to compute.
ghost use Rattle.std.specs.Prelude.{◌≤◌, List, length};
ghost use Rattle.outcomes.specs.Soak.Histogram.{AreBars, BarValue, IsHistogram, RunSeen, most_runs};

/// A law, for proofs alone: the bars of runs that were noted one
/// after another have the counts of these runs, if a `u64` can, and none is lost.
pub fn law_counts()
    ensures { (runs : List RunSeen) (bars : List BarValue) → AreBars runs bars → length runs ≤ most_runs → IsHistogram runs bars }
{}
