// One step on its rows: a quick test whether refusals 8 to 12 are due at no node, whose two loops end at the first node where one may be due and say
// no more than that, and a look node by node, which finds the one that is due first. In a record that is accepted every step passes the quick test.
ghost use Rattle.std.specs.Prelude.{◌≡◌, true, ℕ, suc, ◌+◌, ◌*◌, ◌≤◌, get_or, IfSome};
ghost use Rattle.tables.specs.Answer.{answer_of, refusal};
ghost use Rattle.tables.specs.First.{first_node};
ghost use Rattle.road.specs.Step.{outflow};
ghost use Rattle.road.specs.Run.{inflow};
ghost use Rattle.lists.specs.Rows.{flows_in, step_road};
ghost use Rattle.lists.specs.Fits.{RowFits, NodeIn};
ghost use Rattle.convert_rows.specs.Rows.{step_fault_in, RowsKept, SentKept};
ghost use Rattle.convert_rows.specs.Quick.{TableKept, OfferedKept, NodeHeld, FlowsFit, FlowsKept, NodeMoves, MovesKept};

use lists::inner::corridor::Corridor;
use lists::inner::demands::Demand;
use lists::inner::record::Row;
use road::Units;
use tables::{Answer, placed};

// The rows of a step, before and after it, where the table of links and ramps stands for the corridor. That some corridor has this table each method
// asks by itself, since a ghost field holds no choice of a corridor.
#[derive(Clone, Copy)]
pub struct StepRows<'a> {
    pub table: &'a [u32],
    pub links: usize,
    pub demand: Demand<'a>,
    pub row: Row<'a>,
    pub after: Row<'a>,
    ghost next: { RowFits row.width after.words.now links × (after.width ≡ row.width) },
}

// Step k: the corridor, the step's demands, and the record's rows before and after it.
#[derive(Clone, Copy)]
pub struct Step<'a> {
    pub corridor: Corridor<'a>,
    pub k: usize,
    pub demand: Demand<'a>,
    pub row: Row<'a>,
    pub after: Row<'a>,
    ghost short: { k ≤ 1440 },
    ghost kept: { RowsKept row.width corridor.words.now demand.row.now row.words.now corridor.links },
    ghost next: { RowFits row.width after.words.now corridor.links × (after.width ≡ row.width) },
}

// What node i passes on, by the rows of a step.
pub fn outflow_at(demand: Demand<'_>, row: Row<'_>, i: usize) -> Units
    requires node_in { NodeIn 2 demand.row.now i × NodeIn row.width row.words.now i }
    requires split_bound { get_or demand.row.now (i * 2 + 1) 0 ≤ 65536 }
    requires flows_bound { (flows_in row.width row.words.now i).main + (flows_in row.width row.words.now i).ramp ≤ 134283264 }
    ensures { (result.0
        ≡ outflow (flows_in row.entry.width row.entry.words.now i) (get_or demand.entry.row.now (i * 2 + 1) 0))
        × (result.0 ≤ 134283264) }
{
    road::inner::outflow(row.flows(i), demand.split(i))
}

impl StepRows<'_> {
    // Whether 8, 9 and 10 are not due at node i, which may pass on `supply`.
    fn flows_fit(&self, supply: Units, i: usize) -> bool
        requires kept { TableKept self.now.row.width self.now.table.now self.now.demand.row.now self.now.row.words.now self.now.links }
        requires i_le_links { i ≤ self.now.links }
        ensures { result ≡ true
            → FlowsFit self.now.row.width self.now.table.now self.now.demand.row.now self.now.row.words.now supply.0 i }
    {
        let link = link_table::inner::link_at(self.table, i);
        let ramp = link_table::inner::ramp_at(self.table, i);
        let state = self.row.state(i);
        let flows = self.row.flows(i);
        let sent = road::inner::sending(link, state.vehicles, link.full_speed);
        let through = road::inner::through(flows.main, self.demand.split(i));
        flows.main.0 <= sent.0
            && (through.0 as u64) + (flows.ramp.0 as u64) <= supply.0 as u64
            && flows.ramp.0 <= state.queue.0
            && flows.ramp.0 <= ramp.capacity.0
    }

    // Whether 8, 9 and 10 are due at no node. Node N, which alone may pass on the downstream flow, comes after the others, so that no turn asks which
    // node it is.
    fn flows_kept(&self) -> bool
        requires { TableKept self.now.row.width self.now.table.now self.now.demand.row.now self.now.row.words.now self.now.links }
        ensures { result ≡ true
            → FlowsKept self.now.row.width self.now.table.now self.now.demand.row.now self.now.demand.downstream.0
            self.now.row.words.now self.now.links }
    {
        for i in 0..self.links {
            let supply = link_table::inner::receiving_at(
                self.table,
                self.row.words,
                self.row.width,
                i + 1,
            );
            if !self.flows_fit(supply, i) {
                return false;
            }
        }
        self.flows_fit(self.demand.downstream, self.links)
    }

    // Whether 11 and 12 are not due at node i, whose link gains `gained`.
    fn node_moves(&self, gained: Units, i: usize) -> bool
        requires kept { TableKept self.now.row.width self.now.table.now self.now.demand.row.now self.now.row.words.now self.now.links }
        requires i_le_links { i ≤ self.now.links }
        requires node_held { NodeHeld self.now.row.width self.now.demand.row.now self.now.row.words.now gained.0 i }
        ensures { result ≡ true
            → NodeMoves self.now.row.width self.now.table.now self.now.demand.row.now self.now.row.words.now self.now.after.words.now
            gained.0 i }
    {
        let flows = self.row.flows(i);
        let said = self.row.exit(i);
        let exit = record_faults::inner::exit_fault(said, flows.main, self.demand.split(i));
        let moved = road::inner::moved(self.row.state(i), gained, self.demand.arrivals(i), flows);
        let next = self.after.state(i);
        let ramp = link_table::inner::ramp_at(self.table, i);
        exit.is_ok() && next == moved && next.queue.0 <= ramp.queue_limit.0
    }

    // The vehicles and queues of the state after the step, where 11 and 12 are due at no node.
    fn moves_kept(&self) -> Option<u64>
        requires kept { TableKept self.now.row.width self.now.table.now self.now.demand.row.now self.now.row.words.now self.now.links }
        requires sent_kept { SentKept self.now.row.width self.now.row.words.now self.now.links
            × OfferedKept self.now.row.width self.now.row.words.now self.now.links }
        ensures { IfSome result (λ (cost : ℕ).
            MovesKept self.now.row.width self.now.table.now self.now.demand.row.now self.now.row.words.now self.now.after.words.now
            self.now.links cost) }
    {
        let mut gained = Units(0);
        let mut cost: u64 = 0;
        for i in 0..self.links + 1 {
            if !self.node_moves(gained, i) {
                return None;
            }
            gained = outflow_at(self.demand, self.row, i);
            let next = self.after.state(i);
            cost += (next.vehicles.0 as u64) + (next.queue.0 as u64);
        }
        Some(cost)
    }

    // The vehicles and queues of the state after the step, where 8 to 12 are due at no node.
    pub fn moves(&self) -> Option<u64>
        requires { TableKept self.now.row.width self.now.table.now self.now.demand.row.now self.now.row.words.now self.now.links }
        ensures { IfSome result (λ (cost : ℕ).
            FlowsKept self.now.row.width self.now.table.now self.now.demand.row.now self.now.demand.downstream.0
            self.now.row.words.now self.now.links
            × MovesKept self.now.row.width self.now.table.now self.now.demand.row.now self.now.row.words.now self.now.after.words.now
            self.now.links cost) }
    {
        if !self.flows_kept() {
            return None;
        }
        self.moves_kept()
    }
}

impl Step<'_> {
    // One of refusals 8 to 12 at node i, whose link gains `gained`.
    fn answer(&self, gained: Units, i: usize) -> Answer
        requires i_le_links { i ≤ self.now.corridor.links }
        requires gained { (gained.0 ≤ 134283264)
            × (gained.0
            ≡ inflow (step_road self.now.corridor.words.now self.now.demand.row.now self.now.demand.downstream.0) 0
            (flows_in self.now.row.width self.now.row.words.now) i) }
        ensures { answer_of result
            ≡ refusal
            (step_fault_in self.now.row.width self.now.corridor.words.now self.now.demand.row.now self.now.demand.downstream.0
            self.now.row.words.now self.now.after.words.now i) self.now.k i }
    {
        let fault = record_faults::inner::step_fault(
            self.corridor.junction(self.demand, self.row, i),
            self.row.flows(i),
            self.row.exit(i),
            gained,
            self.demand.arrivals(i),
            self.after.state(i),
        );
        placed(fault, self.k as u32, i as u32)
    }

    // The first node with one of refusals 8 to 12, node by node.
    pub fn nodes(&self) -> Answer
        ensures { answer_of result
            ≡ first_node (suc self.now.corridor.links) self.now.k
            (step_fault_in self.now.row.width self.now.corridor.words.now self.now.demand.row.now self.now.demand.downstream.0
            self.now.row.words.now self.now.after.words.now) }
    {
        let mut gained = Units(0);
        for i in 0..self.corridor.nodes() {
            self.answer(gained, i)?;
            gained = outflow_at(self.demand, self.row, i);
        }
        Ok(())
    }
}
