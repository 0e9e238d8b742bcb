// One step on its rows: from a state to its flows, to the record's row and to the next state.
ghost use Rattle.std.specs.Prelude.{◌≡◌, ◌+◌, ◌*◌, ◌≤◌, get_or};
ghost use Rattle.road.specs.Values.{state_of, flows_of};
ghost use Rattle.lists.specs.Words.{Width};
ghost use Rattle.lists.specs.Rows.{state_in};
ghost use Rattle.lists.specs.Fits.{RowFits, NodeIn};
ghost use Rattle.simulate_rows.specs.Rows.{row_cost, rest_row, put_exit, put_node, start_row, flows_from, flow_row, passed_in};
ghost use Rattle.simulate_rows.specs.Rows.{RowsFit, MoveKept, MovesFit, NodeMoved, RowMoved, Stepped};

use lists::inner::corridor::Corridor;
use lists::inner::demands::Demand;
use lists::inner::record::Row;
use lists::inner::{plan, rows};
use road::{Flows, Junction, NodeState, Units};

// A row to be written is a slice with its width beside it and no struct: each function that writes through one would have to say that the width
// stays.

// The exit of node i, stored in a row that has a word for it.
fn put_exit(row: &mut [u32], width: usize, i: usize, exit: Units)
    requires { NodeIn width row.old i }
    ensures { row.new ≡ put_exit width row.old i exit.0 }
{
    if width > 4 {
        row[i * width + 4] = exit.0;
    }
}

// The words of node i, stored in a row.
fn put_node(row: &mut [u32], width: usize, i: usize, state: NodeState, flows: Flows, exit: Units)
    requires { Width width × NodeIn width row.old i }
    ensures { row.new ≡ put_node width row.old i (state_of state) (flows_of flows) exit.0 }
{
    let at = i * width;
    row[at] = state.vehicles.0;
    row[at + 1] = state.queue.0;
    row[at + 2] = flows.main.0;
    row[at + 3] = flows.ramp.0;
    put_exit(row, width, i, exit);
}

// The state of node i.
fn state_at(state: &[u32], i: usize) -> NodeState
    requires { NodeIn 2 state.now i }
    ensures { state_of result ≡ state_in 2 state.now i }
{
    NodeState {
        vehicles: Units(rows::word(state, 2, i, 0)),
        queue: Units(rows::word(state, 2, i, 1)),
    }
}

// The flows of node i.
fn flows_at(flows: &[u32], i: usize) -> Flows
    requires { NodeIn 2 flows.now i }
    ensures { flows_of result ≡ passed_in flows.now i }
{
    Flows {
        main: Units(rows::word(flows, 2, i, 0)),
        ramp: Units(rows::word(flows, 2, i, 1)),
    }
}

// The state that the corridor starts in.
pub fn start(corridor: Corridor<'_>, state: &mut [u32])
    requires { RowFits 2 state.old corridor.links }
    ensures { state.new ≡ start_row corridor.entry.words.now corridor.entry.links }
{
    for i in 0..corridor.nodes() {
        let first = corridor.start(i);
        rows::put_two(state, i, first.vehicles.0, first.queue.0);
    }
}

// The flows of node i, whose supply is told, at the rate and limit of a plan's row.
fn plan_flows(
    table: &[u32],
    demand: Demand<'_>,
    plan: &[u32],
    state: &[u32],
    supply: Units,
    i: usize,
) -> Flows
    requires node_in { NodeIn 8 table.now i × NodeIn 2 demand.row.now i × NodeIn 2 plan.now i × NodeIn 2 state.now i }
    requires split_bound { get_or demand.row.now (i * 2 + 1) 0 ≤ 65536 }
    ensures { flows_of result ≡ flows_from table.now demand.entry.row.now plan.now state.now supply.0 i }
{
    let junction = Junction {
        link: link_table::inner::link_at(table, i),
        ramp: link_table::inner::ramp_at(table, i),
        state: state_at(state, i),
        split: demand.split(i),
        supply,
    };
    road::inner::flows_with(junction, plan::rate_at(plan, i), plan::limit_at(plan, i))
}

// The flows of a step. Node N comes after the loop, since nothing but what may pass beyond link N bounds it.
fn flow_row(
    table: &[u32],
    links: usize,
    demand: Demand<'_>,
    plan: &[u32],
    state: &[u32],
    flows: &mut [u32],
)
    requires { RowsFit table.now demand.row.now plan.now state.now links × RowFits 2 flows.old links }
    ensures { flows.new
        ≡ flow_row table.now links demand.entry.row.now demand.entry.downstream.0 plan.now state.now }
{
    for i in 0..links {
        let supply = link_table::inner::receiving_at(table, state, 2, i + 1);
        let passed = plan_flows(table, demand, plan, state, supply, i);
        rows::put_two(flows, i, passed.main.0, passed.ramp.0);
    }
    let last = plan_flows(table, demand, plan, state, demand.downstream, links);
    rows::put_two(flows, links, last.main.0, last.ramp.0);
}

// The vehicles and the queue of a node.
fn load(state: NodeState) -> u64
    ensures { (result ≡ state.vehicles.0 + state.queue.0) × (result ≤ 8589934590) }
{
    u64::from(state.vehicles.0) + u64::from(state.queue.0)
}

// What a node passes on, and the vehicles and the queue that it then has.
#[derive(Clone, Copy)]
struct Move {
    outward: Units,
    total: u64,
}

// Node i, whose link gains `gained`: its words in the record's row, and its next state in the place of its state.
fn move_node(
    demand: Demand<'_>,
    state: &mut [u32],
    flows: &[u32],
    row: &mut [u32],
    width: usize,
    i: usize,
    gained: Units,
) -> Move
    requires node_in { NodeIn 2 demand.row.now i × NodeIn 2 state.old i × NodeIn 2 flows.now i × NodeIn width row.old i × Width width }
    requires move_kept { MoveKept demand.row.now state.old flows.now i × (gained.0 ≤ 228655104) }
    ensures { NodeMoved width demand.entry.row.now state.old flows.now row.old i gained.0
        state.new row.new result.outward.0 result.total }
{
    let here = state_at(state, i);
    let passed = flows_at(flows, i);
    let split = demand.split(i);
    let left = road::inner::exit(passed.main, split);
    put_node(row, width, i, here, passed, left);
    let next = road::inner::moved(here, gained, demand.arrivals(i), passed);
    rows::put_two(state, i, next.vehicles.0, next.queue.0);
    Move {
        outward: road::inner::outflow(passed, split),
        total: load(next),
    }
}

// The record's row of a step, and the next state in the place of the state. It gives the next state's vehicles and queues.
fn move_row(
    links: usize,
    demand: Demand<'_>,
    state: &mut [u32],
    flows: &[u32],
    row: &mut [u32],
    width: usize,
) -> u64
    requires { MovesFit demand.row.now state.old flows.now links × RowFits width row.old links × Width width }
    ensures { RowMoved width demand.entry.row.now state.old flows.now links row.new state.new result }
{
    let mut gained = Units(0);
    let mut total: u64 = 0;
    for i in 0..links + 1 {
        let moved = move_node(demand, state, flows, row, width, i, gained);
        gained = moved.outward;
        total += moved.total;
    }
    total
}

// One step: its flows, in the room lent for them, the record's row, and the next state in the place of the state. It gives the next state's
// vehicles and queues.
pub fn step(
    table: &[u32],
    links: usize,
    demand: Demand<'_>,
    plan: &[u32],
    state: &mut [u32],
    flows: &mut [u32],
    row: &mut [u32],
    width: usize,
) -> u64
    requires rows_fit { RowsFit table.now demand.row.now plan.now state.old links × RowFits 2 flows.old links }
    requires row_fits { RowFits width row.old links × Width width }
    ensures { Stepped width table.now links demand.entry.row.now demand.entry.downstream.0 plan.now state.old
        flows.new row.new state.new result }
{
    flow_row(table, links, demand, plan, state, flows);
    move_row(links, demand, state, flows, row, width)
}

// A state as a record's row, with no flow.
pub fn rest_row(links: usize, state: &[u32], row: &mut [u32], width: usize)
    requires { RowFits 2 state.now links × RowFits width row.old links × Width width × (links ≤ 64) }
    ensures { row.new ≡ rest_row width links (state_in 2 state.now) }
{
    let still = Flows {
        main: Units(0),
        ramp: Units(0),
    };
    for i in 0..links + 1 {
        put_node(row, width, i, state_at(state, i), still, Units(0));
    }
}

// The vehicles and queues of a row.
pub fn row_cost(links: usize, row: Row<'_>) -> u64
    requires { RowFits row.width row.words.now links × (links ≤ 64) }
    ensures { (result ≡ row_cost row.entry.width links row.entry.words.now) × (result ≤ 558345748350) }
{
    let mut total: u64 = 0;
    for i in 0..links + 1 {
        total += load(row.state(i));
    }
    total
}
