// The lengths that N and K ask of the word lists, in either kind, refusal 1 by them, and the lists once they have them.
ghost use Rattle.std.specs.Prelude.{◌≡◌, ◌&&◌, true, ◌≤◌, length};
ghost use Rattle.faults.specs.Lists.{within};
ghost use Rattle.lists.specs.Words.{links_of, steps_of, Width, record_length, record_width, width_of};
ghost use Rattle.lengths.specs.Lengths.{corridor_sized, demands_sized, record_sized, sizes, lengths_fit};

use lists::inner::corridor::{self, Corridor};
use lists::inner::demands::{self, Demands};
use lists::inner::record::Record;
use lists::inner::rows;

// Whether `count` words are a corridor of kind 1 or of kind 10.
fn corridor_sized(links: usize, count: usize) -> bool
    requires { links ≤ 64 }
    ensures { result ≡ corridor_sized links count }
{
    let nodes = links + 1;
    count == 1 + nodes * 9 || count == 1 + nodes * 11
}

// Whether `count` words are demands of kind 2 or of kind 5.
fn demands_sized(links: usize, steps: usize, count: usize) -> bool
    requires { (links ≤ 64) × (steps ≤ 1440) }
    ensures { result ≡ demands_sized links steps count }
{
    let short = 1 + rows::table_length(steps, (links + 1) * 2);
    count == short || count == short + steps
}

// Whether N and K are in their ranges.
fn in_range(links: usize, steps: usize) -> bool
    ensures { result ≡ (within 1 64 links && within 1 1440 steps) }
{
    (1..=64).contains(&links) && (1..=1440).contains(&steps)
}

// Whether N and K are in range and the lists are as long as these tell.
fn lengths_fit(links: usize, steps: usize, corridor: usize, demands: usize) -> bool
    ensures { result ≡ lengths_fit links steps corridor demands }
{
    in_range(links, steps)
        && corridor_sized(links, corridor)
        && demands_sized(links, steps, demands)
}

// Whether N, K and the length of both lists are right.
pub fn sizes(corridor: &[u32], demands: &[u32]) -> bool
    ensures { result ≡ sizes corridor.now demands.now }
{
    lengths_fit(
        corridor::links_of(corridor),
        demands::steps_of(demands),
        corridor.len(),
        demands.len(),
    )
}

// How many words a record has.
pub fn record_length(links: usize, steps: usize, width: usize) -> usize
    requires { (links ≤ 64) × (steps ≤ 1440) × Width width }
    ensures { result ≡ record_length width links steps }
{
    rows::table_length(steps + 1, rows::state_words(links, width)) + 2
}

// How many words a node has in a record of `count` words: 5 where that is the length of kind 7, and else 4.
pub fn record_width(links: usize, steps: usize, count: usize) -> usize
    requires { (links ≤ 64) × (steps ≤ 1440) }
    ensures { (result ≡ record_width links steps count) × Width result }
{
    if count == record_length(links, steps, 5) {
        5
    } else {
        4
    }
}

// Whether `count` words are a record of kind 3 or of kind 7.
pub fn record_sized(links: usize, steps: usize, count: usize) -> bool
    requires { (links ≤ 64) × (steps ≤ 1440) }
    ensures { result ≡ record_sized links steps count }
{
    let width = record_width(links, steps, count);
    count == record_length(links, steps, width)
}

// The corridor, once all sizes are right.
pub fn sized_corridor<'a>(words: &'a [u32], demands: &[u32]) -> Corridor<'a>
    requires { sizes words.now demands.now ≡ true }
    ensures { (result.words.now ≡ words.now) × (result.links ≡ links_of words.now) }
{
    Corridor {
        words,
        links: corridor::links_of(words),
    }
}

// The demands, once all sizes are right.
pub fn sized_demands<'a>(corridor: &[u32], words: &'a [u32]) -> Demands<'a>
    requires { sizes corridor.now words.now ≡ true }
    ensures { (result.words.now ≡ words.now) × (result.links ≡ links_of corridor.now) × (result.steps ≡ steps_of words.now) }
{
    Demands {
        words,
        links: corridor::links_of(corridor),
        steps: demands::steps_of(words),
    }
}

// A record, once all sizes are right, its own too.
pub fn sized_record<'a>(corridor: &[u32], demands: &[u32], words: &'a [u32]) -> Record<'a>
    requires sized { sizes corridor.now demands.now ≡ true }
    requires words_len { length words.now
        ≡ record_length (width_of corridor.now demands.now (length words.now)) (links_of corridor.now) (steps_of demands.now) }
    ensures lent { result.words.now ≡ words.now }
    ensures told { (result.links ≡ links_of corridor.now) × (result.steps ≡ steps_of demands.now) }
    ensures width { result.width ≡ width_of corridor.now demands.now (length words.now) }
{
    let links = corridor::links_of(corridor);
    let steps = demands::steps_of(demands);
    Record {
        words,
        links,
        steps,
        width: record_width(links, steps, words.len()),
    }
}
