// A proposed record past refusals 1 to 5: its first refusal, 7 over all its rows, then 8 to 12 step by step, then 13, and the converter's plan.
ghost use Rattle.std.specs.Prelude.{◌≡◌, ℕ, ◌+◌, ◌*◌, ◌≤◌, ◌<◌, length, IfOk};
ghost use Rattle.tables.specs.Answer.{Accepted, answer_of};
ghost use Rattle.lists.specs.Words.{links_of, steps_of, road_of, plan_length, width_of};
ghost use Rattle.link_table.specs.Table.{table_of};
ghost use Rattle.convert.specs.Refusals.{judged};
ghost use Rattle.convert.specs.Convert.{converted_by};
ghost use Rattle.convert.specs.Rows.{fixed_row_refusal, fixed_refusal, step_refusal, steps_refusal, state_cost_at, cost_in, CostKnown, cost_refusal, Ready};

use convert_rows::inner::plans;
use convert_rows::inner::rows::{self, Found};
use lists::inner::corridor::{self, Corridor};
use lists::inner::demands::{self, Demands};
use lists::inner::record::Record;
use tables::inner::first;
use tables::{Answer, Refusal, placed};

// A proposed record with its corridor and its demands, once 1 to 5 are passed.
#[derive(Clone, Copy)]
pub struct Proposal<'a> {
    pub corridor: Corridor<'a>,
    pub demands: Demands<'a>,
    pub record: Record<'a>,
    ghost ready: { Ready record.width corridor.words.now demands.words.now record.words.now corridor.links demands.steps },
    ghost same: { (demands.links ≡ corridor.links) × (record.links ≡ corridor.links) × (record.steps ≡ demands.steps) },
}

// The proposal of three lists.
pub fn proposed<'a>(corridor: &'a [u32], demands: &'a [u32], words: &'a [u32]) -> Proposal<'a>
    requires { Ready (width_of corridor.now demands.now (length words.now)) corridor.now demands.now words.now
        (links_of corridor.now) (steps_of demands.now) }
    ensures lent { (result.corridor.words.now ≡ corridor.now) × (result.demands.words.now ≡ demands.now)
        × (result.record.words.now ≡ words.now) }
    ensures told { (result.corridor.links ≡ links_of corridor.now) × (result.demands.steps ≡ steps_of demands.now)
        × (result.record.width ≡ width_of corridor.now demands.now (length words.now)) }
{
    let links = corridor::links_of(corridor);
    let steps = demands::steps_of(demands);
    let width = lengths::inner::record_width(links, steps, words.len());
    Proposal {
        corridor: Corridor {
            words: corridor,
            links,
        },
        demands: Demands {
            words: demands,
            links,
            steps,
        },
        record: Record {
            words,
            links,
            steps,
            width,
        },
    }
}

// Refusal 13, where the cost is `total`: its words are the record's last two, whatever N, K and the width are.
fn scan_cost(words: &[u32], total: u64) -> Answer
    requires { 2 ≤ length words.now }
    ensures { (width links steps : ℕ) → CostKnown width links steps words.now total
        → answer_of result ≡ cost_refusal width links steps words.now }
{
    let at = words.len() - 2;
    placed(
        record_faults::inner::total_fault(total, words[at], words[at + 1]),
        0,
        0,
    )
}

// The first node of state k with refusal 7.
fn fixed_at(corridor: Corridor<'_>, recorded: Record<'_>, k: usize) -> Answer
    requires { (recorded.links ≡ corridor.links) × (k ≤ recorded.steps) }
    ensures { answer_of result
        ≡ fixed_row_refusal recorded.entry.width corridor.entry.words.now corridor.entry.links recorded.entry.steps
        recorded.entry.words.now k }
{
    rows::fixed_row(corridor, recorded.steps, k, recorded.row(k))
}

// The first state and node with refusal 7, whatever the words are.
pub fn scan_fixed(corridor: Corridor<'_>, recorded: Record<'_>) -> Answer
    requires { recorded.links ≡ corridor.links }
    ensures { answer_of result
        ≡ fixed_refusal recorded.entry.width corridor.entry.words.now corridor.entry.links recorded.entry.steps recorded.entry.words.now }
{
    first(recorded.steps + 1, |k| fixed_at(corridor, recorded, k))
}

impl Proposal<'_> {
    // The first node of step k with one of refusals 8 to 12, where no step before it has any, and the vehicles and queues of state k + 1.
    fn step_at(self, table: &[u32], k: usize) -> Found
        requires fixed_accepted { fixed_refusal self.record.width self.corridor.words.now self.corridor.links self.demands.steps
            self.record.words.now ≡ Accepted }
        requires steps_accepted { steps_refusal self.record.width self.corridor.words.now self.demands.words.now self.corridor.links
            self.record.words.now k ≡ Accepted }
        requires k_lt_steps { (k < self.demands.steps) × (table.now ≡ table_of self.corridor.words.now self.corridor.links) }
        ensures found { answer_of result.answer
            ≡ step_refusal self.entry.record.width self.entry.corridor.words.now self.entry.demands.words.now self.entry.corridor.links
            self.entry.record.words.now k }
        ensures adds { (result.cost
            ≡ state_cost_at self.entry.record.width self.entry.corridor.links self.entry.demands.steps self.entry.record.words.now k)
            × (result.cost ≤ 558345748350) }
    {
        let before = self.record.row(k);
        let after = self.record.row(k + 1);
        rows::step_row(self.corridor, table, k, self.demands.step(k), before, after)
    }

    // The first step and node with one of refusals 8 to 12, and, where there is none, the cost of states 1..K.
    fn scan_steps(self, table: &[u32]) -> Result<u64, Refusal>
        requires fixed_accepted { fixed_refusal self.record.width self.corridor.words.now self.corridor.links self.demands.steps
            self.record.words.now ≡ Accepted }
        requires table_value { table.now ≡ table_of self.corridor.words.now self.corridor.links }
        ensures answered { answer_of result
            ≡ steps_refusal self.entry.record.width self.entry.corridor.words.now self.entry.demands.words.now self.entry.corridor.links
            self.entry.record.words.now self.entry.demands.steps }
        ensures ok { IfOk result (λ (total : ℕ). total
            ≡ cost_in self.entry.record.width self.entry.corridor.links self.entry.demands.steps self.entry.record.words.now) }
    {
        let mut total: u64 = 0;
        for k in 0..self.demands.steps {
            let step = self.step_at(table, k);
            step.answer?;
            total += step.cost;
        }
        Ok(total)
    }

    // The first refusal of 7 to 13.
    pub fn judged(self) -> Answer
        ensures { answer_of result
            ≡ judged self.entry.record.width (road_of self.entry.corridor.words.now self.entry.demands.words.now)
            self.entry.record.words.now }
    {
        scan_fixed(self.corridor, self.record)?;
        let size = self.corridor.nodes() * 8;
        let mut room = [0u32; 520];
        let table = &mut room[..size];
        link_table::inner::fill(self.corridor, table);
        let total = self.scan_steps(table)?;
        scan_cost(self.record.words, total)
    }

    // The converter's plan of a record that is accepted: the settings of all steps.
    pub fn write_plan(self, plan: &mut [u32])
        requires accepted { judged self.record.width (road_of self.corridor.words.now self.demands.words.now) self.record.words.now ≡ Accepted }
        requires plan_len { length plan.old ≡ plan_length self.corridor.links self.demands.steps }
        ensures { plan.new
            ≡ converted_by self.entry.record.width self.entry.corridor.words.now self.entry.demands.words.now self.entry.record.words.now }
    {
        let width = self.corridor.nodes() * 2;
        for k in 0..self.demands.steps {
            let at = lists::inner::rows::row_at(k, width, self.demands.steps);
            let end = at + width;
            plans::plan_row(
                self.corridor,
                self.demands.step(k),
                self.record.row(k),
                &mut plan[at..end],
            );
        }
    }
}
