// What refuses the simulator: 1 to 6 of document 01.
ghost use Rattle.std.specs.Prelude.{◌≡◌, ◌≤◌};
ghost use Rattle.tables.specs.Answer.{answer_of};
ghost use Rattle.lists.specs.Words.{plan_length};
ghost use Rattle.simulate.specs.Simulate.{simulate_sizes, simulate_answer};

use lists::inner::{corridor, demands, rows};
use tables::{Answer, sized};

// How many words a plan has.
pub fn plan_length(links: usize, steps: usize) -> usize
    requires { (links ≤ 64) × (steps ≤ 1440) }
    ensures { result ≡ plan_length links steps }
{
    rows::table_length(steps, (links + 1) * 2)
}

// Whether N, K and all lengths are right; `room` is the length of the lent record.
fn fits(corridor: &[u32], demands: &[u32], plan: &[u32], room: usize) -> bool
    ensures { result ≡ simulate_sizes corridor.now demands.now plan.now room }
{
    let links = corridor::links_of(corridor);
    let steps = demands::steps_of(demands);
    lengths::inner::sizes(corridor, demands)
        && plan.len() == plan_length(links, steps)
        && lengths::inner::record_sized(links, steps, room)
}

// The answer of the simulator.
pub fn refused(corridor: &[u32], demands: &[u32], plan: &[u32], room: usize) -> Answer
    ensures { answer_of result ≡ simulate_answer corridor.now demands.now plan.now room }
{
    sized(fits(corridor, demands, plan, room))?;
    list_scans::inner::ranges(corridor, demands)?;
    list_scans::inner::bounds(corridor, demands, plan)
}
