// A proposed record in files, past refusals 1 to 5: its first refusal, 7 over all states, then 8 to 12 step by step, then 13.
ghost use Rattle.std.specs.Prelude.{◌≡◌, ℕ, ◌≤◌, ◌<◌, IfOk};
ghost use Rattle.tables.specs.Answer.{Accepted, answer_of, refusal};
ghost use Rattle.lists.specs.Words.{road_of};
ghost use Rattle.link_table.specs.Table.{table_of};
ghost use Rattle.convert_rows.specs.Rows.{fixed_fault_in};
ghost use Rattle.convert.specs.Refusals.{judged};
ghost use Rattle.convert.specs.Rows.{fixed_row_refusal, fixed_refusal, step_refusal, steps_refusal, state_cost_at, cost_in, cost_refusal};
ghost use Rattle.file_rows.specs.Words.{demands_in, record_in};
ghost use Rattle.file_rows.specs.Rows.{state_row_in};
ghost use Rattle.file_scans.specs.Fits.{FilesReady};

use convert_rows::inner::rows::{self, Found};
use file_rows::inner::demands::FileDemands;
use file_rows::inner::record::FileRecord;
use lists::inner::corridor::Corridor;
use lists::inner::demands::Demand;
use lists::inner::record::Row;
use tables::inner::first;
use tables::{Answer, Refusal, placed};

// The scans are those of `Proposal` of crates/convert over rows that are unpacked when they are asked for: a trait over both would need a ghost
// member for each list, and its methods' clauses for bodies of one, six and seven lines.
//
// A proposed record with its corridor and its demands, once 1 to 5 are passed: the corridor's words are unpacked, and the rows of the other two
// stay in their files until they are asked for.
#[derive(Clone, Copy)]
pub struct FileProposal<'a> {
    pub corridor: Corridor<'a>,
    pub demands: FileDemands<'a>,
    pub record: FileRecord<'a>,
    pub ghost ready: { FilesReady record.width corridor.links demands.steps corridor.words.now demands.bytes.now record.bytes.now },
    pub ghost same: { (demands.links ≡ corridor.links) × (record.links ≡ corridor.links) × (record.steps ≡ demands.steps) },
}

// Refusal 13, where the cost is `total`.
fn scan_cost(record: FileRecord<'_>, total: u64) -> Answer
    requires { total
        ≡ cost_in record.width record.links record.steps (record_in record.width record.links record.steps record.bytes.now) }
    ensures { answer_of result
        ≡ cost_refusal record.entry.width record.entry.links record.entry.steps
        (record_in record.entry.width record.entry.links record.entry.steps record.entry.bytes.now) }
{
    let (low, high) = record.cost_words();
    placed(record_faults::inner::total_fault(total, low, high), 0, 0)
}

impl FileProposal<'_> {
    // Refusal 7 at node i in state k: its words alone are unpacked.
    fn fixed_node(self, k: usize, i: usize) -> Answer
        requires { (k ≤ self.demands.steps) × (i ≤ self.corridor.links) }
        ensures { answer_of result
            ≡ refusal
            (fixed_fault_in self.entry.record.width self.entry.corridor.words.now self.entry.corridor.links self.entry.demands.steps k
            (state_row_in self.entry.record.width self.entry.corridor.links self.entry.record.bytes.now k) i) k i }
    {
        let width = self.record.width;
        let mut room = [0u32; 5];
        let words = &mut room[..width];
        self.record.node(k, i, words);
        let node = Row { words, width };
        let fault = record_faults::inner::fixed_fault(
            self.corridor.links,
            self.demands.steps,
            k,
            i,
            self.corridor.start(i),
            node.state(0),
            node.flows(0),
            node.exit(0),
        );
        placed(fault, k as u32, i as u32)
    }

    // The first node of a state between 0 and K with refusal 7, which is due at nodes 0 and N alone.
    fn fixed_ends(self, k: usize) -> Answer
        requires { (0 < k) × (k < self.demands.steps) }
        ensures { answer_of result
            ≡ fixed_row_refusal self.entry.record.width self.entry.corridor.words.now self.entry.corridor.links self.entry.demands.steps
            (record_in self.entry.record.width self.entry.corridor.links self.entry.demands.steps self.entry.record.bytes.now) k }
    {
        self.fixed_node(k, 0)?;
        self.fixed_node(k, self.corridor.links)
    }

    // The first node of state k with refusal 7, all its words unpacked.
    fn fixed_whole(self, k: usize) -> Answer
        requires { k ≤ self.demands.steps }
        ensures { answer_of result
            ≡ fixed_row_refusal self.entry.record.width self.entry.corridor.words.now self.entry.corridor.links self.entry.demands.steps
            (record_in self.entry.record.width self.entry.corridor.links self.entry.demands.steps self.entry.record.bytes.now) k }
    {
        let width = self.record.width;
        let wide = self.corridor.nodes() * width;
        let mut room = [0u32; 325];
        let words = &mut room[..wide];
        self.record.row(k, words);
        rows::fixed_row(self.corridor, self.demands.steps, k, Row { words, width })
    }

    // The first node of state k with refusal 7.
    fn fixed_at(self, k: usize) -> Answer
        requires { k ≤ self.demands.steps }
        ensures { answer_of result
            ≡ fixed_row_refusal self.entry.record.width self.entry.corridor.words.now self.entry.corridor.links self.entry.demands.steps
            (record_in self.entry.record.width self.entry.corridor.links self.entry.demands.steps self.entry.record.bytes.now) k }
    {
        if 0 < k && k < self.demands.steps {
            return self.fixed_ends(k);
        }
        self.fixed_whole(k)
    }

    // The first state and node with refusal 7.
    fn scan_fixed(self) -> Answer
        ensures { answer_of result
            ≡ fixed_refusal self.entry.record.width self.entry.corridor.words.now self.entry.corridor.links self.entry.demands.steps
            (record_in self.entry.record.width self.entry.corridor.links self.entry.demands.steps self.entry.record.bytes.now) }
    {
        first(self.demands.steps + 1, |k| self.fixed_at(k))
    }

    // The first node of step k with one of refusals 8 to 12, where no step before it has any, and the vehicles and queues of state k + 1: the row
    // that both are found in is unpacked once.
    fn step_at(self, table: &[u32], k: usize) -> Found
        requires fixed_accepted { fixed_refusal self.record.width self.corridor.words.now self.corridor.links self.demands.steps
            (record_in self.record.width self.corridor.links self.demands.steps self.record.bytes.now)
            ≡ Accepted }
        requires steps_accepted { steps_refusal self.record.width self.corridor.words.now
            (demands_in self.corridor.links self.demands.steps self.demands.bytes.now) self.corridor.links
            (record_in self.record.width self.corridor.links self.demands.steps self.record.bytes.now) k
            ≡ Accepted }
        requires k_lt_steps { (k < self.demands.steps) × (table.now ≡ table_of self.corridor.words.now self.corridor.links) }
        ensures found { answer_of result.answer
            ≡ step_refusal self.entry.record.width self.entry.corridor.words.now
            (demands_in self.entry.corridor.links self.entry.demands.steps self.entry.demands.bytes.now) self.entry.corridor.links
            (record_in self.entry.record.width self.entry.corridor.links self.entry.demands.steps self.entry.record.bytes.now) k }
        ensures adds { (result.cost
            ≡ state_cost_at self.entry.record.width self.entry.corridor.links self.entry.demands.steps
            (record_in self.entry.record.width self.entry.corridor.links self.entry.demands.steps self.entry.record.bytes.now) k)
            × (result.cost ≤ 558345748350) }
    {
        let width = self.record.width;
        let narrow = self.corridor.nodes() * 2;
        let wide = self.corridor.nodes() * width;
        let mut demand_room = [0u32; 130];
        let row = &mut demand_room[..narrow];
        self.demands.row(k, row);
        let downstream = self.demands.downstream(k);
        let mut room = [0u32; 325];
        let words = &mut room[..wide];
        self.record.row(k, words);
        let mut next_room = [0u32; 325];
        let next = &mut next_room[..wide];
        self.record.row(k + 1, next);
        let after = Row { words: next, width };
        rows::step_row(
            self.corridor,
            table,
            k,
            Demand { row, downstream },
            Row { words, width },
            after,
        )
    }

    // The first step and node with one of refusals 8 to 12, and, where there is none, the cost of states 1..K.
    fn scan_steps(self, table: &[u32]) -> Result<u64, Refusal>
        requires fixed_accepted { fixed_refusal self.record.width self.corridor.words.now self.corridor.links self.demands.steps
            (record_in self.record.width self.corridor.links self.demands.steps self.record.bytes.now)
            ≡ Accepted }
        requires table_value { table.now ≡ table_of self.corridor.words.now self.corridor.links }
        ensures answered { answer_of result
            ≡ steps_refusal self.entry.record.width self.entry.corridor.words.now
            (demands_in self.entry.corridor.links self.entry.demands.steps self.entry.demands.bytes.now) self.entry.corridor.links
            (record_in self.entry.record.width self.entry.corridor.links self.entry.demands.steps self.entry.record.bytes.now)
            self.entry.demands.steps }
        ensures ok { IfOk result (λ (total : ℕ). total
            ≡ cost_in self.entry.record.width self.entry.corridor.links self.entry.demands.steps
            (record_in self.entry.record.width self.entry.corridor.links self.entry.demands.steps self.entry.record.bytes.now)) }
    {
        let mut total: u64 = 0;
        for k in 0..self.demands.steps {
            let step = self.step_at(table, k);
            step.answer?;
            total += step.cost;
        }
        Ok(total)
    }

    // The first refusal of 7 to 13.
    pub fn judged(self) -> Answer
        ensures { answer_of result
            ≡ judged self.entry.record.width
            (road_of self.entry.corridor.words.now
            (demands_in self.entry.corridor.links self.entry.demands.steps self.entry.demands.bytes.now))
            (record_in self.entry.record.width self.entry.corridor.links self.entry.demands.steps self.entry.record.bytes.now) }
    {
        self.scan_fixed()?;
        let size = self.corridor.nodes() * 8;
        let mut room = [0u32; 520];
        let table = &mut room[..size];
        link_table::inner::fill(self.corridor, table);
        let total = self.scan_steps(table)?;
        scan_cost(self.record, total)
    }
}
