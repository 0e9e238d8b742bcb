// The fault of one node by each of refusals 2 to 6, if it has one.
ghost use Rattle.std.specs.Prelude.{◌≡◌, ◌&&◌, leb, eqb};
ghost use Rattle.tables.specs.Answer.{fault_of};
ghost use Rattle.road.specs.Corridor.{Node};
ghost use Rattle.road.specs.Values.{link_of, ramp_of, state_of};
ghost use Rattle.faults.specs.Lists.{no_link, drop_in_range, link_in_range, link_fault, ramp_fault, start_fault, demand_fault, plan_fault};

use road::{Link, NodeState, Ramp};
use tables::{Fault, unless};

// Node 0 has no link.
fn no_link(link: Link) -> bool
    ensures { result ≡ no_link (link_of link) }
{
    link.capacity.0 == 0
        && link.full_speed.0 == 0
        && link.wave_speed.0 == 0
        && link.jam.0 == 0
        && link.dropped_capacity.0 == 0
        && link.drop_density.0 == 0
}

// The dropped capacity is at most F, the drop density at most J.
fn drop_in_range(link: Link) -> bool
    ensures { result ≡ drop_in_range (link_of link) }
{
    link.dropped_capacity.0 <= link.capacity.0 && link.drop_density.0 <= link.jam.0
}

// The ranges of a link, the same at every node past node 0.
fn link_in_range(link: Link) -> bool
    ensures { result ≡ link_in_range (link_of link) }
{
    link.capacity.0 <= 65536
        && (1..=65536).contains(&link.full_speed.0)
        && (1..=65536).contains(&link.wave_speed.0)
        && (1..=65536).contains(&link.jam.0)
        && drop_in_range(link)
}

// Refusal 2 at node i.
#[tactic(auto, unfolding(crate::specs::Lists::link_fault))]
pub fn link_fault(i: usize, link: Link) -> Result<(), Fault>
    ensures { fault_of result ≡ link_fault i (link_of link) }
{
    let holds = if i == 0 {
        no_link(link)
    } else {
        link_in_range(link)
    };
    unless(holds, Fault::Link)
}

// Node N has no ramp.
fn no_ramp(ramp: Ramp) -> bool
    ensures { result ≡ (eqb ramp.capacity.0 0 && eqb ramp.queue_limit.0 0) }
{
    ramp.capacity.0 == 0 && ramp.queue_limit.0 == 0
}

// Refusal 3 at a node: `last` where it is node N, `fresh` where no node before it has its identifier.
#[tactic(auto, unfolding(crate::specs::Lists::ramp_fault))]
pub fn ramp_fault(last: bool, identifier: u32, ramp: Ramp, fresh: bool) -> Result<(), Fault>
    ensures { fault_of result ≡ ramp_fault last identifier (ramp_of ramp) fresh }
{
    unless(
        1 <= identifier
            && fresh
            && ramp.capacity.0 <= 65536
            && ramp.queue_limit.0 <= 134217728
            && (!last || no_ramp(ramp)),
        Fault::Ramp,
    )
}

// Refusal 4 at a node with these parts.
#[tactic(auto, unfolding(crate::specs::Lists::start_fault))]
pub fn start_fault(link: Link, ramp: Ramp, start: NodeState) -> Result<(), Fault>
    ensures { (node : Node) → link_of link ≡ node.link → ramp_of ramp ≡ node.ramp → state_of start ≡ node.start
        → fault_of result ≡ start_fault node }
{
    unless(
        start.vehicles.0 <= link.jam.0 && start.queue.0 <= ramp.queue_limit.0,
        Fault::Start,
    )
}

// At node N both arrivals Q and split b are zero, and the flow that may leave link N is in range.
fn exit_demand(arrivals: u32, split: u32, downstream: u32) -> bool
    ensures { result ≡ (eqb split 0 && (eqb arrivals 0 && leb downstream 65536)) }
{
    split == 0 && arrivals == 0 && downstream <= 65536
}

// Refusal 5 at node i, in a step in which `downstream` may leave link N.
#[tactic(auto, unfolding(crate::specs::Lists::demand_fault))]
pub fn demand_fault(
    links: usize,
    i: usize,
    arrivals: u32,
    split: u32,
    downstream: u32,
) -> Result<(), Fault>
    ensures { fault_of result ≡ demand_fault links i arrivals split downstream }
{
    unless(
        arrivals <= 65536
            && split <= 65536
            && (i != 0 || split == 0)
            && (i != links || exit_demand(arrivals, split, downstream)),
        Fault::Demand,
    )
}

// Refusal 6 at a node.
#[tactic(auto, unfolding(crate::specs::Lists::plan_fault))]
pub fn plan_fault(link: Link, ramp: Ramp, rate: u32, limit: u32) -> Result<(), Fault>
    ensures { fault_of result ≡ plan_fault (link_of link) (ramp_of ramp) rate limit }
{
    unless(
        rate <= ramp.capacity.0 && limit <= link.full_speed.0,
        Fault::Plan,
    )
}
