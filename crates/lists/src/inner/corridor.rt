// A corridor's word list: what it says of each node, and what rules 1 to 5 ask of one at a step.
ghost use Rattle.std.specs.Prelude.{◌≡◌, List, ℕ, suc, ◌+◌, ◌*◌, ◌≤◌, ◌<◌, length, get_or};
ghost use Rattle.road.specs.Run.{supply, junction};
ghost use Rattle.road.specs.Values.{link_of, ramp_of, state_of, junction_of};
ghost use Rattle.lists.specs.Words.{links_of, corridor_length, by_kind, node_width, node_at, corridor_word};
ghost use Rattle.lists.specs.Rows.{state_in, step_road};
ghost use Rattle.lists.specs.Fits.{CorridorFits, RowFits, JamKept};

use crate::inner::demands::Demand;
use crate::inner::record::Row;
use crate::inner::rows;
use road::{Junction, Link, NodeState, Ramp, Speed, Units};

// A corridor whose list has the words that N and its kind tell.
#[derive(Clone, Copy)]
pub struct Corridor<'a> {
    pub words: &'a [u32],
    pub links: usize,
    ghost fits: { CorridorFits words.now links },
}

// N, as the corridor's list gives it.
pub fn links_of(corridor: &[u32]) -> usize
    ensures { result ≡ links_of corridor.now }
{
    rows::opening(corridor)
}

impl<'a> Corridor<'a> {
    // How many nodes it has.
    pub fn nodes(self) -> usize
        ensures { (result ≡ suc self.entry.links) × (result ≤ 65) }
    {
        let _fits = self.words;
        self.links + 1
    }

    // Of two numbers the one for kind 10, where the list has that kind's length, and else the one for kind 1.
    fn by_kind(self, dropped: usize, plain: usize) -> usize
        ensures { result ≡ by_kind self.entry.links (length self.entry.words.now) dropped plain }
    {
        if self.words.len() == 1 + (self.links + 1) * 11 {
            dropped
        } else {
            plain
        }
    }

    // Where the words of node i begin, and that they end within the list.
    fn place(self, i: usize) -> usize
        requires { i ≤ self.links }
        ensures { (result ≡ 1 + i * node_width self.entry.links (length self.entry.words.now))
            × (result + node_width self.entry.links (length self.entry.words.now) ≤ length self.entry.words.now) }
    {
        1 + i * self.by_kind(11, 9)
    }

    // Word q of node i.
    fn word(self, i: usize, q: usize) -> u32
        requires { (i ≤ self.links) × (q < node_width self.links (length self.words.now)) }
        ensures { result ≡ corridor_word self.entry.words.now i q }
    {
        self.words[self.place(i) + q]
    }

    // The identifier of node i.
    pub fn identifier(self, i: usize) -> u32
        requires { i ≤ self.links }
        ensures { result ≡ (node_at self.entry.words.now i).identifier }
    {
        self.word(i, 0)
    }

    // Link i.
    pub fn link(self, i: usize) -> Link
        requires { i ≤ self.links }
        ensures { link_of result ≡ (node_at self.entry.words.now i).link }
    {
        Link {
            capacity: Units(self.word(i, 1)),
            full_speed: Speed(self.word(i, 2)),
            wave_speed: Speed(self.word(i, 3)),
            jam: Units(self.word(i, 4)),
            dropped_capacity: Units(self.word(i, self.by_kind(9, 1))),
            drop_density: Units(self.word(i, self.by_kind(10, 4))),
        }
    }

    // Ramp i.
    pub fn ramp(self, i: usize) -> Ramp
        requires { i ≤ self.links }
        ensures { ramp_of result ≡ (node_at self.entry.words.now i).ramp }
    {
        Ramp {
            capacity: Units(self.word(i, 5)),
            queue_limit: Units(self.word(i, 6)),
        }
    }

    // The state that node i starts in.
    pub fn start(self, i: usize) -> NodeState
        requires { i ≤ self.links }
        ensures { state_of result ≡ (node_at self.entry.words.now i).start }
    {
        NodeState {
            vehicles: Units(self.word(i, 7)),
            queue: Units(self.word(i, 8)),
        }
    }

    // What the merge of node i may pass on, in the state that a record's row gives, where `downstream` may leave link N: no arrival and no
    // split has a part in it.
    pub fn supply(self, downstream: Units, row: Row<'_>, i: usize) -> Units
        requires row_fits { RowFits row.width row.words.now self.links × JamKept row.width self.words.now row.words.now self.links }
        requires i_le_links { i ≤ self.links }
        ensures { (demand : List ℕ) → result.0
            ≡ supply (step_road self.entry.words.now demand downstream.0) 0 (state_in row.entry.width row.entry.words.now) i }
    {
        if i < self.links {
            return road::inner::receiving(self.link(i + 1), row.state(i + 1).vehicles);
        }
        downstream
    }

    // What rules 1 to 5 ask of node i at a step.
    pub fn junction(self, demand: Demand<'_>, row: Row<'_>, i: usize) -> Junction
        requires row_fits { RowFits row.width row.words.now self.links × JamKept row.width self.words.now row.words.now self.links }
        requires demand_fits { RowFits 2 demand.row.now self.links }
        requires i_le_links { i ≤ self.links }
        ensures { junction_of result
            ≡ junction (step_road self.entry.words.now demand.entry.row.now demand.entry.downstream.0) 0
            (state_in row.entry.width row.entry.words.now) i }
    {
        Junction {
            link: self.link(i),
            ramp: self.ramp(i),
            state: row.state(i),
            split: demand.split(i),
            supply: self.supply(demand.downstream, row, i),
        }
    }
}
