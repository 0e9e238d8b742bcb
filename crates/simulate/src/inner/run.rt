// The run of all steps, row by row: into a record, or on the state alone.
ghost use Rattle.std.specs.Prelude.{◌≡◌, suc, ◌+◌, ◌*◌, ◌<◌, length};
ghost use Rattle.lists.specs.Words.{links_of, steps_of, Width, trace_length, record_length, width_of};
ghost use Rattle.lists.specs.Rows.{lent};
ghost use Rattle.lists.specs.Fits.{RowFits};
ghost use Rattle.simulate.specs.Simulate.{Sound, state_row, run_cost, RunAt, Ran, RanAll, simulated};

use lists::inner::corridor::{self, Corridor};
use lists::inner::demands::{self, Demands};
use lists::inner::rows;

// A plan with its corridor and its demands, once refusals 1 to 6 are ruled out, and how many words a node has in its record.
#[derive(Clone, Copy)]
pub struct Run<'a> {
    pub corridor: Corridor<'a>,
    pub demands: Demands<'a>,
    pub plan: &'a [u32],
    pub width: usize,
    ghost same_links: { demands.links ≡ corridor.links },
    ghost sound: { Sound corridor.words.now demands.words.now plan.now },
    ghost wide: { Width width },
}

impl<'a> Run<'a> {
    // The plan's row of step k.
    fn plan_row(self, k: usize) -> &'a [u32]
        requires { k < self.demands.steps }
        ensures { result.now
            ≡ lent (k * (suc self.entry.corridor.links * 2)) (suc self.entry.corridor.links * 2) self.entry.plan.now }
    {
        let width = self.corridor.nodes() * 2;
        let at = rows::row_at(k, width, self.demands.steps);
        let end = at + width;
        &self.plan[at..end]
    }

    // Step k: the record's row of it, and the next state in the state's place. It gives the next state's vehicles and queues.
    fn step(
        self,
        k: usize,
        table: &[u32],
        state: &mut [u32],
        flows: &mut [u32],
        row: &mut [u32],
    ) -> u64
        requires k_lt_steps { k < self.demands.steps }
        requires run_at { RunAt self.corridor.words.now self.demands.words.now self.plan.now k table.now state.old flows.old }
        requires row_fits { RowFits self.width row.old self.corridor.links }
        ensures { Ran self.entry.width self.entry.corridor.words.now self.entry.demands.words.now self.entry.plan.now k
            flows.new row.new state.new result }
    {
        simulate_rows::inner::step(
            table,
            self.corridor.links,
            self.demands.step(k),
            self.plan_row(k),
            state,
            flows,
            row,
            self.width,
        )
    }

    // All steps on the state alone; `row` is room for a step's row. It gives the cost.
    pub fn run_state(
        self,
        table: &[u32],
        state: &mut [u32],
        flows: &mut [u32],
        row: &mut [u32],
    ) -> u64
        requires run_at { RunAt self.corridor.words.now self.demands.words.now self.plan.now 0 table.now state.old flows.old }
        requires row_fits { RowFits self.width row.old self.corridor.links }
        ensures reached { state.new
            ≡ state_row 2 self.entry.corridor.words.now self.entry.demands.words.now self.entry.plan.now self.entry.demands.steps }
        ensures adds { result ≡ run_cost self.entry.corridor.words.now self.entry.demands.words.now self.entry.plan.now }
    {
        let mut total: u64 = 0;
        for k in 0..self.demands.steps {
            total += self.step(k, table, state, flows, row);
        }
        total
    }

    // All steps, each with its row of the record, and then the row of the last state. It gives the cost.
    fn run_steps(
        self,
        table: &[u32],
        state: &mut [u32],
        flows: &mut [u32],
        states: &mut [u32],
    ) -> u64
        requires run_at { RunAt self.corridor.words.now self.demands.words.now self.plan.now 0 table.now state.old flows.old }
        requires states_len { length states.old ≡ trace_length self.width self.corridor.links self.demands.steps }
        ensures { RanAll self.entry.width self.entry.corridor.words.now self.entry.demands.words.now self.entry.plan.now
            states.new result }
    {
        let links = self.corridor.links;
        let steps = self.demands.steps;
        let wide = rows::state_words(links, self.width);
        let count = steps + 1;
        let mut total: u64 = 0;
        for k in 0..steps {
            let at = rows::row_at(k, wide, count);
            let end = at + wide;
            total += self.step(k, table, state, flows, &mut states[at..end]);
        }
        let last = rows::row_at(steps, wide, count);
        let past = last + wide;
        simulate_rows::inner::rest_row(links, state, &mut states[last..past], self.width);
        total
    }

    // The same from the corridor's start, with room for 65 nodes.
    fn run_all(self, states: &mut [u32]) -> u64
        requires { length states.old ≡ trace_length self.width self.corridor.links self.demands.steps }
        ensures { RanAll self.entry.width self.entry.corridor.words.now self.entry.demands.words.now self.entry.plan.now
            states.new result }
    {
        let nodes = self.corridor.nodes();
        let mut table_room = [0u32; 520];
        let table = &mut table_room[..nodes * 8];
        link_table::inner::fill(self.corridor, table);
        let mut state_room = [0u32; 130];
        let state = &mut state_room[..nodes * 2];
        simulate_rows::inner::start(self.corridor, state);
        let mut flow_room = [0u32; 130];
        let flows = &mut flow_room[..nodes * 2];
        self.run_steps(table, state, flows, states)
    }
}

// The whole record, of the kind that its length tells: the words of all states, then the cost.
pub fn write_record<'a>(
    corridor: &'a [u32],
    demands: &'a [u32],
    plan: &'a [u32],
    output: &mut [u32],
)
    requires sound { Sound corridor.now demands.now plan.now }
    requires output_len { length output.old
        ≡ record_length (width_of corridor.now demands.now (length output.old)) (links_of corridor.now) (steps_of demands.now) }
    ensures { output.new
        ≡ simulated (width_of corridor.now demands.now (length output.old))
        corridor.now demands.now plan.now }
{
    let links = corridor::links_of(corridor);
    let steps = demands::steps_of(demands);
    let run = Run {
        corridor: Corridor {
            words: corridor,
            links,
        },
        demands: Demands {
            words: demands,
            links,
            steps,
        },
        plan,
        width: lengths::inner::record_width(links, steps, output.len()),
    };
    let end = output.len() - 2;
    let total = run.run_all(&mut output[..end]);
    output[end] = (total % 4294967296) as u32;
    output[end + 1] = (total / 4294967296) as u32;
}
