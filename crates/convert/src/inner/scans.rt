// Refusal 1 of a proposed record, and its first refusal past that one.
ghost use Rattle.std.specs.Prelude.{◌≡◌, true, ◌&&◌, length, eqb};
ghost use Rattle.tables.specs.Answer.{answer_of};
ghost use Rattle.lists.specs.Words.{links_of, steps_of, plan_length, record_length, width_of};
ghost use Rattle.lengths.specs.Lengths.{record_sized, sizes};
ghost use Rattle.convert.specs.Convert.{record_refusal};

use crate::inner::proposal;
use lists::inner::{corridor, demands};
use tables::Answer;

// Whether N, K and the lengths of the lists are right, with `count` words in the record.
pub fn record_fits(corridor: &[u32], demands: &[u32], count: usize) -> bool
    ensures { result ≡ sizes corridor.now demands.now && record_sized (links_of corridor.now) (steps_of demands.now) count }
{
    lengths::inner::sizes(corridor, demands)
        && lengths::inner::record_sized(
            corridor::links_of(corridor),
            demands::steps_of(demands),
            count,
        )
}

// Whether N and K are in range, both lists have their lengths, and `count` words are a plan's.
pub fn normal_fits(corridor: &[u32], demands: &[u32], count: usize) -> bool
    ensures { result ≡ (sizes corridor.now demands.now && eqb count (plan_length (links_of corridor.now) (steps_of demands.now))) }
{
    lengths::inner::sizes(corridor, demands)
        && count
            == simulate::inner::answer::plan_length(
                corridor::links_of(corridor),
                demands::steps_of(demands),
            )
}

// The first refusal of 2 to 5 and of 7 to 13, where all lengths are right.
pub fn contents(corridor: &[u32], demands: &[u32], words: &[u32]) -> Answer
    requires sizes_fit { sizes corridor.now demands.now ≡ true }
    requires words_len { length words.now
        ≡ record_length (width_of corridor.now demands.now (length words.now)) (links_of corridor.now) (steps_of demands.now) }
    ensures { answer_of result ≡ record_refusal corridor.now demands.now words.now }
{
    list_scans::inner::ranges(corridor, demands)?;
    proposal::proposed(corridor, demands, words).judged()
}
