// The fault of one node by refusals 7 to 12, and that of a cost by 13, if there is one.
ghost use Rattle.std.specs.Prelude.{◌≡◌, ◌&&◌, ◌+◌, ◌≤◌, eqb};
ghost use Rattle.tables.specs.Answer.{fault_of, unless};
ghost use Rattle.road.specs.Corridor.{Road};
ghost use Rattle.road.specs.Step.{exit, moved};
ghost use Rattle.road.specs.Values.{state_of, junction_of, flows_of};
ghost use Rattle.faults.specs.Lists.{implies};
ghost use Rattle.record_faults.specs.Records.{same_state, exit_kept, fixed_fault, next_fault, step_fault, total_fault};

use road::{Flows, Junction, NodeState, Parts, Units};
use tables::{Fault, unless};

// Whether a record that says an off-ramp flow says this one: a record of kind 3 has no word for it, and one of kind 7 says it.
fn exit_kept(said: Option<Units>, flow: Units) -> bool
    ensures { result ≡ exit_kept said flow.0 }
{
    said.is_none_or(|word| word == flow)
}

// Whether a state agrees with the start, where that is asked.
fn start_kept(asked: bool, state: NodeState, start: NodeState) -> bool
    ensures { result ≡ implies asked (same_state (state_of state) (state_of start)) }
{
    !asked || state == start
}

// Whether both counts and the exit, if one is said, are zero, where that is asked.
fn zeros_kept(asked: bool, x: Units, y: Units, said: Option<Units>) -> bool
    ensures { result ≡ implies asked (eqb x.0 0 && (eqb y.0 0 && exit_kept said 0)) }
{
    !asked || x.0 == 0 && y.0 == 0 && exit_kept(said, Units(0))
}

// Refusal 7 at node i in state k, on any road with these N, K and start of the node.
#[tactic(auto, unfolding(crate::specs::Records::fixed_fault))]
pub fn fixed_fault(
    links: usize,
    steps: usize,
    k: usize,
    i: usize,
    start: NodeState,
    state: NodeState,
    flows: Flows,
    said: Option<Units>,
) -> Result<(), Fault>
    ensures { (road : Road) → links ≡ road.links → steps ≡ road.steps → state_of start ≡ (road.node i).start
        → fault_of result ≡ fixed_fault road k i (state_of state) (flows_of flows) said }
{
    unless(
        start_kept(k == 0, state, start)
            && zeros_kept(k == steps, flows.main, flows.ramp, said)
            && zeros_kept(i == 0, state.vehicles, flows.main, said)
            && zeros_kept(i == links, state.queue, flows.ramp, said),
        Fault::Fixed,
    )
}

// Refusal 11 for an exit that the record says of a flow.
pub fn exit_fault(said: Option<Units>, flow: Units, split: Parts) -> Result<(), Fault>
    requires { split.0 ≤ 65536 }
    ensures { fault_of result ≡ unless (exit_kept said (exit flow.0 split.0)) 11 }
{
    unless(
        exit_kept(said, road::inner::exit(flow, split)),
        Fault::Moved,
    )
}

// Refusal 11 or 12 for the next state, where `moved` is the one that rule 6 gives.
#[tactic(auto, unfolding(crate::specs::Records::next_fault))]
fn next_fault(moved: NodeState, after: NodeState, queue_limit: Units) -> Result<(), Fault>
    ensures { fault_of result ≡ next_fault (state_of moved) (state_of after) queue_limit.0 }
{
    unless(after == moved, Fault::Moved)?;
    unless(after.queue.0 <= queue_limit.0, Fault::Queue)
}

// One of refusals 8 to 12 at a node whose link gains `inflow`. Rule 6 is asked only where 8, 9 and 10 passed, so n - f and l - r never go below zero.
#[tactic(auto, using(road::proofs::Rules::sending_le), unfolding(crate::specs::Records::step_fault, road::specs::Step::outflow))]
pub fn step_fault(
    junction: Junction,
    flows: Flows,
    said: Option<Units>,
    inflow: Units,
    arrivals: Units,
    after: NodeState,
) -> Result<(), Fault>
    requires split_bound { (junction.split.0 ≤ 65536) × (junction.link.full_speed.0 ≤ 65536) }
    requires inflow_bound { (junction.state.vehicles.0 + inflow.0 ≤ 4294967295) × (junction.state.queue.0 + arrivals.0 ≤ 4294967295) }
    ensures { fault_of result
        ≡ step_fault (junction_of junction) (flows_of flows) said (moved (state_of junction.state) inflow.0 arrivals.0 (flows_of flows)) (state_of after) }
{
    let sent = road::inner::sending(
        junction.link,
        junction.state.vehicles,
        junction.link.full_speed,
    );
    unless(flows.main.0 <= sent.0, Fault::Sending)?;
    let through = road::inner::through(flows.main, junction.split);
    unless(
        (through.0 as u64) + (flows.ramp.0 as u64) <= junction.supply.0 as u64,
        Fault::Receiving,
    )?;
    unless(
        flows.ramp.0 <= junction.state.queue.0.min(junction.ramp.capacity.0),
        Fault::Offer,
    )?;
    exit_fault(said, flows.main, junction.split)?;
    let moved = road::inner::moved(junction.state, inflow, arrivals, flows);
    next_fault(moved, after, junction.ramp.queue_limit)
}

// Refusal 13: a total cost against the record's two last words.
#[tactic(auto, unfolding(crate::specs::Records::total_fault))]
pub fn total_fault(total: u64, low: u32, high: u32) -> Result<(), Fault>
    ensures { fault_of result ≡ total_fault total low high }
{
    unless(
        low as u64 == total % 4294967296 && high as u64 == total / 4294967296,
        Fault::Cost,
    )
}
