// A record's word list: the row of each state, and what it says of each node.
ghost use Rattle.std.specs.Prelude.{◌≡◌, suc, ◌+◌, ◌*◌, ◌≤◌, ◌<◌, length};
ghost use Rattle.road.specs.Values.{state_of, flows_of};
ghost use Rattle.lists.specs.Words.{Width};
ghost use Rattle.lists.specs.Rows.{state_in, flows_in, exit_in, lent};
ghost use Rattle.lists.specs.Fits.{RecordFits, NodeIn};

use crate::inner::rows;
use road::{Flows, NodeState, Units};

// A record whose list has the words that N, K and its kind tell.
#[derive(Clone, Copy)]
pub struct Record<'a> {
    pub words: &'a [u32],
    pub links: usize,
    pub steps: usize,
    pub width: usize,
    ghost fits: { RecordFits width links steps words.now },
}

// One of its rows: `width` words a node, 4 in kind 3 and 5 in kind 7.
#[derive(Clone, Copy)]
pub struct Row<'a> {
    pub words: &'a [u32],
    pub width: usize,
    ghost wide: { Width width },
}

impl<'a> Record<'a> {
    // The row of state k.
    pub fn row(self, k: usize) -> Row<'a>
        requires { k ≤ self.steps }
        ensures row { result.words.now
            ≡ lent (k * (suc self.entry.links * self.entry.width)) (suc self.entry.links * self.entry.width) self.entry.words.now }
        ensures width { result.width ≡ self.entry.width }
    {
        let wide = rows::state_words(self.links, self.width);
        let at = rows::row_at(k, wide, self.steps + 1);
        let end = at + wide;
        Row {
            words: &self.words[at..end],
            width: self.width,
        }
    }
}

impl Row<'_> {
    // The state of node i.
    pub fn state(self, i: usize) -> NodeState
        requires { NodeIn self.width self.words.now i }
        ensures { state_of result ≡ state_in self.entry.width self.entry.words.now i }
    {
        NodeState {
            vehicles: Units(rows::word(self.words, self.width, i, 0)),
            queue: Units(rows::word(self.words, self.width, i, 1)),
        }
    }

    // The flows of node i.
    pub fn flows(self, i: usize) -> Flows
        requires { NodeIn self.width self.words.now i }
        ensures { flows_of result ≡ flows_in self.entry.width self.entry.words.now i }
    {
        Flows {
            main: Units(rows::word(self.words, self.width, i, 2)),
            ramp: Units(rows::word(self.words, self.width, i, 3)),
        }
    }

    // What the row says of the exit of node i.
    pub fn exit(self, i: usize) -> Option<Units>
        requires { NodeIn self.width self.words.now i }
        ensures { result ≡ exit_in self.entry.width self.entry.words.now i }
    {
        if self.width > 4 {
            return Some(Units(rows::word(self.words, self.width, i, 4)));
        }
        None
    }
}
