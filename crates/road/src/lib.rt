// The values of one step of one node, in the units of document 01, each in a type of its own so that none stands in for another.
#![tactic(auto)]

pub mod inner;

// A vehicle count or a flow per step, in 1/64 vehicle.
#[derive(Clone, Copy, PartialEq, Eq)]
pub struct Units(pub u32);

// A speed, in 1/65,536 section per step.
#[derive(Clone, Copy)]
pub struct Speed(pub u32);

// A split, in parts of 65,536.
#[derive(Clone, Copy)]
pub struct Parts(pub u32);

// A link: F, V, W, J, dropped capacity and drop density.
#[derive(Clone, Copy)]
pub struct Link {
    pub capacity: Units,
    pub full_speed: Speed,
    pub wave_speed: Speed,
    pub jam: Units,
    pub dropped_capacity: Units,
    pub drop_density: Units,
}

// An on-ramp: C and L.
#[derive(Clone, Copy)]
pub struct Ramp {
    pub capacity: Units,
    pub queue_limit: Units,
}

// The vehicles n of a node's link and the queue l of its ramp.
#[derive(Clone, Copy, PartialEq, Eq)]
pub struct NodeState {
    pub vehicles: Units,
    pub queue: Units,
}

// What rules 1 to 5 ask of a node at a step: its link, its ramp, their state, the split b and the supply S.
#[derive(Clone, Copy)]
pub struct Junction {
    pub link: Link,
    pub ramp: Ramp,
    pub state: NodeState,
    pub split: Parts,
    pub supply: Units,
}

// The mainline flow f and the ramp flow r of a node.
#[derive(Clone, Copy, PartialEq, Eq)]
pub struct Flows {
    pub main: Units,
    pub ramp: Units,
}
