// The calls on word lists.
ghost use Rattle.std.specs.Prelude.{◌≡◌, length};
ghost use Rattle.tables.specs.Answer.{host_number};
ghost use Rattle.simulate.specs.Simulate.{simulate_answer, record_left};
ghost use Rattle.convert.specs.Convert.{check_answer, convert_answer, normal_answer, plan_left, work_left, normal_left};
ghost use Rattle.search.specs.Search.{search_answer, search_left};

use crate::inner;

#[unsafe(no_mangle)]
pub extern "C" fn gigorchid_simulate_words(
    corridor: &[u32],
    demands: &[u32],
    plan: &[u32],
    record: &mut [u32],
) -> u32
    ensures answered { result ≡ host_number (simulate_answer corridor.now demands.now plan.now (length «record».old)) }
    ensures written { «record».new ≡ record_left corridor.now demands.now plan.now «record».old }
{
    let answer = simulate::simulate(corridor, demands, plan, record);
    inner::number(answer)
}

#[unsafe(no_mangle)]
pub extern "C" fn gigorchid_check_words(corridor: &[u32], demands: &[u32], record: &[u32]) -> u32
    ensures { result ≡ host_number (check_answer corridor.now demands.now «record».now) }
{
    let answer = convert::check(corridor, demands, record);
    inner::number(answer)
}

#[unsafe(no_mangle)]
pub extern "C" fn gigorchid_convert_words(
    corridor: &[u32],
    demands: &[u32],
    record: &[u32],
    plan: &mut [u32],
) -> u32
    ensures answered { result ≡ host_number (convert_answer corridor.now demands.now «record».now (length plan.old)) }
    ensures written { plan.new ≡ plan_left corridor.now demands.now «record».now plan.old }
{
    let answer = convert::convert(corridor, demands, record, plan);
    inner::number(answer)
}

#[unsafe(no_mangle)]
pub extern "C" fn gigorchid_normal_words(
    corridor: &[u32],
    demands: &[u32],
    plan: &[u32],
    work: &mut [u32],
    normal: &mut [u32],
) -> u32
    ensures answered { result ≡ host_number (normal_answer corridor.now demands.now plan.now (length work.old) (length normal.old)) }
    ensures worked { work.new ≡ work_left corridor.now demands.now plan.now work.old (length normal.old) }
    ensures written { normal.new ≡ normal_left corridor.now demands.now plan.now (length work.old) normal.old }
{
    let answer = convert::normal_form(corridor, demands, plan, work, normal);
    inner::number(answer)
}

#[unsafe(no_mangle)]
pub extern "C" fn gigorchid_search_words(
    corridor: &[u32],
    demands: &[u32],
    record: &[u32],
    step: u32,
    node: u32,
    out: &mut [u32],
) -> u32
    ensures answered { result ≡ host_number (search_answer corridor.now demands.now «record».now step node (length out.old)) }
    ensures written { out.new ≡ search_left corridor.now demands.now «record».now step node out.old }
{
    let answer = search::search(corridor, demands, record, step, node, out);
    inner::number(answer)
}
