// The demands' word list: the row of each step, and what it says of each node.
ghost use Rattle.std.specs.Prelude.{◌≡◌, suc, ◌+◌, ◌*◌, ◌≤◌, ◌<◌, length, get_or};
ghost use Rattle.lists.specs.Words.{steps_of, free, downstream_word};
ghost use Rattle.lists.specs.Rows.{lent};
ghost use Rattle.lists.specs.Fits.{DemandsFit, NodeIn};

use crate::inner::rows;
use road::{Parts, Units};

// Demands whose list has at least the words of kind 2 that N and K tell.
#[derive(Clone, Copy)]
pub struct Demands<'a> {
    pub words: &'a [u32],
    pub links: usize,
    pub steps: usize,
    ghost fits: { DemandsFit words.now links steps },
}

// The demands of one step: two words a node, and the flow that may leave link N.
#[derive(Clone, Copy)]
pub struct Demand<'a> {
    pub row: &'a [u32],
    pub downstream: Units,
}

// K, as the demands' list gives it.
pub fn steps_of(demands: &[u32]) -> usize
    ensures { result ≡ steps_of demands.now }
{
    rows::opening(demands)
}

// The flow that may leave link N in the step of row k, of a list whose rows end before word `end`: the list's word for it, or 65,536 where
// the list has none.
pub fn downstream_past(list: &[u32], end: usize, k: usize) -> Units
    requires { end ≤ length list.now }
    ensures { result.0 ≡ get_or list.now (end + k) free }
{
    if k < list.len() - end {
        return Units(list[end + k]);
    }
    Units(65536)
}

impl<'a> Demands<'a> {
    // The flow that may leave link N in step k, or in any later one.
    pub fn downstream(self, k: usize) -> Units
        ensures { result.0 ≡ downstream_word self.entry.words.now self.entry.links self.entry.steps k }
    {
        let rows = rows::table_length(self.steps, (self.links + 1) * 2);
        downstream_past(self.words, 1 + rows, k)
    }

    // The demands of step k.
    pub fn step(self, k: usize) -> Demand<'a>
        requires { k < self.steps }
        ensures row { result.row.now ≡ lent (1 + k * (suc self.entry.links * 2)) (suc self.entry.links * 2) self.entry.words.now }
        ensures downstream { result.downstream.0 ≡ downstream_word self.entry.words.now self.entry.links self.entry.steps k }
    {
        let width = (self.links + 1) * 2;
        let at = 1 + rows::row_at(k, width, self.steps);
        let end = at + width;
        Demand {
            row: &self.words[at..end],
            downstream: self.downstream(k),
        }
    }
}

impl Demand<'_> {
    // The arrivals of node i.
    pub fn arrivals(self, i: usize) -> Units
        requires { NodeIn 2 self.row.now i }
        ensures { result.0 ≡ get_or self.entry.row.now (i * 2 + 0) 0 }
    {
        Units(rows::word(self.row, 2, i, 0))
    }

    // The split of node i.
    pub fn split(self, i: usize) -> Parts
        requires { NodeIn 2 self.row.now i }
        ensures { result.0 ≡ get_or self.entry.row.now (i * 2 + 1) 0 }
    {
        Parts(rows::word(self.row, 2, i, 1))
    }
}
