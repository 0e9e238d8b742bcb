// The functions that a C host calls with the corridor as a list of nodes: as those on words, with the same answers.
ghost use Rattle.std.specs.Prelude.{◌≡◌, length};
ghost use Rattle.tables.specs.Answer.{host_number};
ghost use Rattle.simulate.specs.Simulate.{simulate_answer, record_left};
ghost use Rattle.convert.specs.Convert.{check_answer, convert_answer, normal_answer, plan_left, work_left, normal_left};
ghost use Rattle.nodes.specs.Nodes.{corridor_words};

use crate::inner;
use nodes::Node;

#[unsafe(no_mangle)]
pub extern "C" fn gigorchid_simulate_nodes(
    nodes: &[Node],
    demands: &[u32],
    plan: &[u32],
    record: &mut [u32],
) -> u32
    ensures answered { result ≡ host_number (simulate_answer (corridor_words nodes.now) demands.now plan.now (length «record».old)) }
    ensures written { «record».new ≡ record_left (corridor_words nodes.now) demands.now plan.now «record».old }
{
    let answer = nodes::simulate_nodes(nodes, demands, plan, record);
    inner::number(answer)
}

#[unsafe(no_mangle)]
pub extern "C" fn gigorchid_check_nodes(nodes: &[Node], demands: &[u32], record: &[u32]) -> u32
    ensures { result ≡ host_number (check_answer (corridor_words nodes.now) demands.now «record».now) }
{
    let answer = nodes::check_nodes(nodes, demands, record);
    inner::number(answer)
}

#[unsafe(no_mangle)]
pub extern "C" fn gigorchid_convert_nodes(
    nodes: &[Node],
    demands: &[u32],
    record: &[u32],
    plan: &mut [u32],
) -> u32
    ensures answered { result ≡ host_number (convert_answer (corridor_words nodes.now) demands.now «record».now (length plan.old)) }
    ensures written { plan.new ≡ plan_left (corridor_words nodes.now) demands.now «record».now plan.old }
{
    let answer = nodes::convert_nodes(nodes, demands, record, plan);
    inner::number(answer)
}

#[unsafe(no_mangle)]
pub extern "C" fn gigorchid_normal_nodes(
    nodes: &[Node],
    demands: &[u32],
    plan: &[u32],
    work: &mut [u32],
    normal: &mut [u32],
) -> u32
    ensures answered { result ≡ host_number (normal_answer (corridor_words nodes.now) demands.now plan.now (length work.old) (length normal.old)) }
    ensures worked { work.new ≡ work_left (corridor_words nodes.now) demands.now plan.now work.old (length normal.old) }
    ensures written { normal.new ≡ normal_left (corridor_words nodes.now) demands.now plan.now (length work.old) normal.old }
{
    let answer = nodes::normal_form_nodes(nodes, demands, plan, work, normal);
    inner::number(answer)
}
