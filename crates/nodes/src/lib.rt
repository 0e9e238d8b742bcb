// The corridor taken as a list of nodes, one record each: each call has the answer and the lent lists of its list version.
#![tactic(auto)]

ghost use Rattle.std.specs.Prelude.{◌≡◌, length};
ghost use Rattle.tables.specs.Answer.{answer_of};
ghost use Rattle.simulate.specs.Simulate.{simulate_answer, record_left};
ghost use Rattle.convert.specs.Convert.{check_answer, convert_answer, normal_answer, plan_left, work_left, normal_left};
ghost use Rattle.nodes.specs.Nodes.{corridor_words};

use crate::inner::words_of_nodes;
use tables::Answer;

pub mod inner;

// A node of the corridor, its words in the order of kind 10.
#[repr(C)]
#[derive(Clone, Copy)]
pub struct Node {
    pub identifier: u32,
    pub capacity: u32,
    pub full_speed: u32,
    pub wave_speed: u32,
    pub jam: u32,
    pub ramp_capacity: u32,
    pub queue_limit: u32,
    pub start_vehicles: u32,
    pub start_queue: u32,
    pub dropped_capacity: u32,
    pub drop_density: u32,
}

// The record of a plan.
pub fn simulate_nodes(nodes: &[Node], demands: &[u32], plan: &[u32], record: &mut [u32]) -> Answer
    ensures answered { answer_of result ≡ simulate_answer (corridor_words nodes.now) demands.now plan.now (length «record».old) }
    ensures written { «record».new ≡ record_left (corridor_words nodes.now) demands.now plan.now «record».old }
{
    let mut room = [0u32; 716];
    let words = words_of_nodes(nodes, &mut room);
    simulate::simulate(words, demands, plan, record)
}

// Checks a proposed record.
pub fn check_nodes(nodes: &[Node], demands: &[u32], record: &[u32]) -> Answer
    ensures { answer_of result ≡ check_answer (corridor_words nodes.now) demands.now «record».now }
{
    let mut room = [0u32; 716];
    let words = words_of_nodes(nodes, &mut room);
    convert::check(words, demands, record)
}

// Checks a proposed record and writes the plan that has it.
pub fn convert_nodes(nodes: &[Node], demands: &[u32], record: &[u32], plan: &mut [u32]) -> Answer
    ensures answered { answer_of result ≡ convert_answer (corridor_words nodes.now) demands.now «record».now (length plan.old) }
    ensures written { plan.new ≡ plan_left (corridor_words nodes.now) demands.now «record».now plan.old }
{
    let mut room = [0u32; 716];
    let words = words_of_nodes(nodes, &mut room);
    convert::convert(words, demands, record, plan)
}

// Simulates the plan into `work`, then writes the plan that the converter returns for that record.
pub fn normal_form_nodes(
    nodes: &[Node],
    demands: &[u32],
    plan: &[u32],
    work: &mut [u32],
    normal: &mut [u32],
) -> Answer
    ensures answered { answer_of result ≡ normal_answer (corridor_words nodes.now) demands.now plan.now (length work.old) (length normal.old) }
    ensures worked { work.new ≡ work_left (corridor_words nodes.now) demands.now plan.now work.old (length normal.old) }
    ensures written { normal.new ≡ normal_left (corridor_words nodes.now) demands.now plan.now (length work.old) normal.old }
{
    let mut room = [0u32; 716];
    let words = words_of_nodes(nodes, &mut room);
    convert::normal_form(words, demands, plan, work, normal)
}
