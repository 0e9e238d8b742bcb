// The leaves of a step: rules 1 to 6 of one node on typed values, each proved to be its definition. Products are 64 bits wide.
ghost use Rattle.std.specs.Prelude.{◌≡◌, ◌+◌, ◌*◌, ◌/◌, ◌≤◌, ◌<◌};
ghost use Rattle.road.specs.Step.{discharge, sending, exit, through, offer, receiving, merge, flows_with, outflow, moved};
ghost use Rattle.road.specs.Values.{link_of, ramp_of, state_of, junction_of, flows_of};

use crate::{Flows, Junction, Link, NodeState, Parts, Ramp, Speed, Units};

// The whole product of two numbers.
#[tactic(auto, using(crate::proofs::Quotients::product_bits))]
pub fn product(a: u32, b: u32) -> u64
    ensures { result ≡ a * b }
{
    (a as u64) * (b as u64)
}

// The share part / whole of x, rounded down.
#[tactic(auto, using(crate::proofs::Quotients::share_le))]
pub fn share(x: u32, part: u32, whole: u64) -> u32
    requires part_le_whole { part ≤ whole }
    requires whole_nonzero { 0 < whole }
    ensures { (result ≡ x * part / whole) × (result ≤ x) }
{
    (product(x, part) / whole) as u32
}

// Rule 1: what a link may discharge.
#[tactic(auto, unfolding(crate::specs::Step::discharge))]
pub fn discharge(link: Link, vehicles: Units) -> Units
    ensures { result.0 ≡ discharge (link_of link) vehicles.0 }
{
    if vehicles.0 <= link.drop_density.0 {
        link.capacity
    } else {
        link.dropped_capacity
    }
}

// Rule 1.
#[tactic(auto, unfolding(crate::specs::Step::sending))]
pub fn sending(link: Link, vehicles: Units, limit: Speed) -> Units
    ensures { result.0 ≡ sending (link_of link) vehicles.0 limit.0 }
{
    let sent = product(vehicles.0, limit.0) / 65536;
    let most = discharge(link, vehicles);
    Units(sent.min(most.0 as u64) as u32)
}

// Rule 2: what leaves by the off-ramp.
#[tactic(auto, unfolding(crate::specs::Step::exit))]
pub fn exit(flow: Units, split: Parts) -> Units
    requires { split.0 ≤ 65536 }
    ensures { (result.0 ≡ exit flow.0 split.0) × (result.0 ≤ flow.0) }
{
    Units(share(flow.0, split.0, 65536))
}

// Rule 2: the rest.
#[tactic(auto, unfolding(crate::specs::Step::through))]
pub fn through(flow: Units, split: Parts) -> Units
    requires { split.0 ≤ 65536 }
    ensures { result.0 ≡ through flow.0 split.0 }
{
    Units(flow.0 - exit(flow, split).0)
}

// Rule 3.
#[tactic(auto, unfolding(crate::specs::Step::offer))]
pub fn offer(ramp: Ramp, queue: Units, rate: Units) -> Units
    ensures { result.0 ≡ offer (ramp_of ramp) queue.0 rate.0 }
{
    Units(queue.0.min(ramp.capacity.0).min(rate.0))
}

// Rule 4.
#[tactic(auto, unfolding(crate::specs::Step::receiving))]
pub fn receiving(link: Link, vehicles: Units) -> Units
    requires { vehicles.0 ≤ link.jam.0 }
    ensures { result.0 ≡ receiving (link_of link) vehicles.0 }
{
    let room = product(link.wave_speed.0, link.jam.0 - vehicles.0) / 65536;
    Units(room.min(link.capacity.0 as u64) as u32)
}

// Rule 5.
#[tactic(auto, using(crate::proofs::Rules::passed_free, crate::proofs::Rules::passed_tight), unfolding(crate::specs::Step::merge))]
pub fn merge(sent: Units, offered: Units, split: Parts, supply: Units) -> Flows
    requires { split.0 ≤ 65536 }
    ensures { flows_of result ≡ merge sent.0 offered.0 split.0 supply.0 }
{
    let total = (through(sent, split).0 as u64) + (offered.0 as u64);
    if total <= supply.0 as u64 {
        return Flows {
            main: sent,
            ramp: offered,
        };
    }
    let main = share(sent.0, supply.0, total);
    let ramp = share(offered.0, supply.0, total);
    Flows {
        main: Units(main),
        ramp: Units(ramp),
    }
}

// Rules 1 to 5 at a metering rate and a posted limit.
#[tactic(auto, unfolding(crate::specs::Step::flows_with))]
pub fn flows_with(junction: Junction, rate: Units, limit: Speed) -> Flows
    requires { junction.split.0 ≤ 65536 }
    ensures { flows_of result ≡ flows_with (junction_of junction) rate.0 limit.0 }
{
    let sent = sending(junction.link, junction.state.vehicles, limit);
    let offered = offer(junction.ramp, junction.state.queue, rate);
    merge(sent, offered, junction.split, junction.supply)
}

// What a node passes into the next link.
#[tactic(auto, using(crate::proofs::Rules::through_le), unfolding(crate::specs::Step::outflow))]
pub fn outflow(flows: Flows, split: Parts) -> Units
    requires split_bound { split.0 ≤ 65536 }
    requires ramp_bound { flows.main.0 + flows.ramp.0 ≤ 4294967295 }
    ensures { result.0 ≡ outflow (flows_of flows) split.0 }
{
    Units(through(flows.main, split).0 + flows.ramp.0)
}

// Rule 6.
#[tactic(auto, unfolding(crate::specs::Step::moved))]
pub fn moved(state: NodeState, inflow: Units, arrivals: Units, flows: Flows) -> NodeState
    requires main_le_vehicles { (flows.main.0 ≤ state.vehicles.0) × (flows.ramp.0 ≤ state.queue.0) }
    requires inflow_bound { (state.vehicles.0 + inflow.0 ≤ 4294967295) × (state.queue.0 + arrivals.0 ≤ 4294967295) }
    ensures { state_of result ≡ moved (state_of state) inflow.0 arrivals.0 (flows_of flows) }
{
    NodeState {
        vehicles: Units(state.vehicles.0 + inflow.0 - flows.main.0),
        queue: Units(state.queue.0 + arrivals.0 - flows.ramp.0),
    }
}
