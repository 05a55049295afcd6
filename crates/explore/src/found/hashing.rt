//! Hashes of outcomes.
ghost use Rattle.std.specs.Prelude.{◌≡◌, fold};
ghost use Rattle.std.specs.Hash.DefaultHasher as sip;
ghost use Rattle.explore.specs.Found.{end_number, hash_of, rank_writes};

use audit::End;
use audit::final_runs::RankEnd;
use std::hash::{DefaultHasher, Hash, Hasher};

/// A number that is the same of outcomes that are the same.
pub fn hash_of(ranks: &[RankEnd]) -> u64
    ensures { result ≡ hash_of ranks.now }
{
    let mut hasher = DefaultHasher::new();
    for rank in ranks {
        add_rank(rank, &mut hasher);
    }
    hasher.finish()
}

fn add_rank(rank: &RankEnd, hasher: &mut DefaultHasher)
    ensures { hasher.new ≡ fold sip.write hasher.old (rank_writes rank.now) }
{
    rank.lines.as_slice().hash(hasher);
    hasher.write_u8(end_number(rank.end));
}

fn end_number(end: End) -> u8
    ensures { result ≡ end_number end }
{
    match end {
        End::Unfinished => 0,
        End::Halted => 1,
        End::Stalled => 2,
        End::Faulted(_) => 3,
    }
}
