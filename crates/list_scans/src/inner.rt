// The first refusal of the lists: 2 to 5 by the corridor's nodes and the demands' rows, 6 by the plan's rows.
ghost use Rattle.std.specs.Prelude.{◌≡◌, true, ℕ, [], suc, ◌+◌, ◌*◌, ◌≤◌, ◌<◌, length, get_or};
ghost use Rattle.tables.specs.Answer.{answer_of, fault_of};
ghost use Rattle.tables.specs.First.{first_node};
ghost use Rattle.faults.specs.Lists.{start_fault, plan_fault};
ghost use Rattle.lists.specs.Words.{links_of, steps_of, node_at, road_of, plan_length};
ghost use Rattle.lists.specs.Fits.{RowFits, NodeIn};
ghost use Rattle.lengths.specs.Lengths.{sizes};
ghost use Rattle.list_scans.specs.Refusals.{ranges, plan_bounds};
ghost use Rattle.list_scans.specs.Scans.{Ramp, Demand as DemandTest, Plan, node_fault, node_fault_in, node_fault_at, most_row};
ghost use Rattle.list_scans.specs.Scans.{corridor_refusal, demands_refusal, plan_refusal};

use faults::inner::{demand_fault, link_fault, plan_fault, ramp_fault, start_fault};
use lists::inner::corridor::Corridor;
use lists::inner::demands::{Demand, Demands};
use lists::inner::{plan, rows};
use tables::inner::first;
use tables::{Answer, Fault, placed};

pub mod identifiers;
pub mod most;

// Refusal 3 at node i.
pub fn ramp_test(corridor: Corridor<'_>, i: usize) -> Result<(), Fault>
    requires { i ≤ corridor.links }
    ensures { fault_of result ≡ node_fault Ramp corridor.entry.words.now corridor.entry.links i 0 0 0 }
{
    let fresh = identifiers::fresh(corridor, i);
    ramp_fault(
        i == corridor.links,
        corridor.identifier(i),
        corridor.ramp(i),
        fresh,
    )
}

// Refusal 4 at node i.
pub fn start_test(corridor: Corridor<'_>, i: usize) -> Result<(), Fault>
    requires { i ≤ corridor.links }
    ensures { fault_of result ≡ start_fault (node_at corridor.entry.words.now i) }
{
    start_fault(corridor.link(i), corridor.ramp(i), corridor.start(i))
}

// Refusal 5 at node i, in the demands of a step.
pub fn demand_test(links: usize, demand: Demand<'_>, i: usize) -> Result<(), Fault>
    requires { NodeIn 2 demand.row.now i }
    ensures { fault_of result
        ≡ node_fault_in DemandTest [] links demand.entry.row.now demand.entry.downstream.0 i }
{
    demand_fault(
        links,
        i,
        demand.arrivals(i).0,
        demand.split(i).0,
        demand.downstream.0,
    )
}

// Refusal 6 at node i, in a row of the plan.
pub fn plan_test(corridor: Corridor<'_>, row: &[u32], i: usize) -> Result<(), Fault>
    requires { (i ≤ corridor.links) × NodeIn 2 row.now i }
    ensures { (downstream : ℕ) → fault_of result
        ≡ node_fault_in Plan corridor.entry.words.now corridor.entry.links row.now downstream i }
{
    let rate = plan::rate_at(row, i);
    let limit = plan::limit_at(row, i);
    plan_fault(corridor.link(i), corridor.ramp(i), rate.0, limit.0)
}

// The first node that a test refuses, in row k of a list or, with k = 0, in the corridor.
pub fn scan_nodes<F: Fn(usize) -> Result<(), Fault>>(k: usize, links: usize, test: F) -> Answer
    requires small { (k ≤ 1440) × (links ≤ 64) }
    requires callable { (i : ℕ) → i ≤ links → F.pre test i }
    ensures { (fault : ℕ → ℕ) → ((i : ℕ) (r : _) → i ≤ links → F.post test i r → fault_of r ≡ fault i)
        → answer_of result ≡ first_node (suc links) k fault }
{
    first(links + 1, |i| placed(test(i), k as u32, i as u32))
}

// Refusals 2 to 4, each over all nodes before the next.
pub fn scan_corridor(corridor: Corridor<'_>) -> Answer
    ensures { answer_of result ≡ corridor_refusal corridor.entry.words.now corridor.entry.links }
{
    let links = corridor.links;
    scan_nodes(0, links, |i| link_fault(i, corridor.link(i)))?;
    scan_nodes(0, links, |i| ramp_test(corridor, i))?;
    scan_nodes(0, links, |i| start_test(corridor, i))
}

// The first node of step k with refusal 5, in a row that `most` bounds: where no word is above its bound the nodes need not be looked at.
pub fn demand_row(links: usize, k: usize, demand: Demand<'_>, most: &[u32]) -> Answer
    requires small { (k ≤ 1440) × (links ≤ 64) × RowFits 2 demand.row.now links }
    requires bounds { most.now ≡ most_row DemandTest [] links }
    ensures { answer_of result
        ≡ first_node (suc links) k
        (node_fault_in DemandTest [] links demand.entry.row.now demand.entry.downstream.0) }
{
    if demand.downstream.0 <= 65536 && most::row_within(demand.row, most) {
        return Ok(());
    }
    scan_nodes(k, links, |i| demand_test(links, demand, i))
}

// The same in the demands' list.
fn demand_at(demands: Demands<'_>, k: usize, most: &[u32]) -> Answer
    requires k_lt_steps { k < demands.steps }
    requires bounds { most.now ≡ most_row DemandTest [] demands.links }
    ensures { answer_of result
        ≡ first_node (suc demands.entry.links) k
        (node_fault_at DemandTest [] demands.entry.links demands.entry.steps 1 demands.entry.words.now k) }
{
    demand_row(demands.links, k, demands.step(k), most)
}

// The first node of step k with refusal 6 in a plan of `steps` rows, likewise.
fn plan_at(corridor: Corridor<'_>, steps: usize, words: &[u32], k: usize, most: &[u32]) -> Answer
    requires k_lt_steps { (k < steps) × (steps ≤ 1440) × (length words.now ≡ plan_length corridor.links steps) }
    requires bounds { most.now ≡ most_row Plan corridor.words.now corridor.links }
    ensures { answer_of result
        ≡ first_node (suc corridor.entry.links) k
        (node_fault_at Plan corridor.entry.words.now corridor.entry.links steps 0 words.now k) }
{
    let width = corridor.nodes() * 2;
    let at = rows::row_at(k, width, steps);
    let end = at + width;
    let row = &words[at..end];
    if most::row_within(row, most) {
        return Ok(());
    }
    scan_nodes(k, corridor.links, |i| plan_test(corridor, row, i))
}

// The first step and node with refusal 5.
fn scan_demands(demands: Demands<'_>) -> Answer
    ensures { answer_of result ≡ demands_refusal [] demands.entry.links demands.entry.steps demands.entry.words.now }
{
    let mut room = [0u32; 130];
    let most = &mut room[..(demands.links + 1) * 2];
    most::demand_bounds(demands.links, most);
    first(demands.steps, |k| demand_at(demands, k, most))
}

// The first step and node with refusal 6, in a plan of `steps` rows.
fn scan_plan(corridor: Corridor<'_>, steps: usize, words: &[u32]) -> Answer
    requires { (steps ≤ 1440) × (length words.now ≡ plan_length corridor.links steps) }
    ensures { answer_of result ≡ plan_refusal corridor.entry.words.now corridor.entry.links steps words.now }
{
    let width = corridor.nodes() * 2;
    let mut room = [0u32; 130];
    let most = &mut room[..width];
    most::plan_bounds(corridor, most);
    first(steps, |k| plan_at(corridor, steps, words, k, most))
}

// The first refusal of 2 to 5.
pub fn ranges(corridor: &[u32], demands: &[u32]) -> Answer
    requires { sizes corridor.now demands.now ≡ true }
    ensures { answer_of result ≡ ranges (road_of corridor.now demands.now) }
{
    scan_corridor(lengths::inner::sized_corridor(corridor, demands))?;
    scan_demands(lengths::inner::sized_demands(corridor, demands))
}

// The first refusal of 6.
pub fn bounds(corridor: &[u32], demands: &[u32], plan: &[u32]) -> Answer
    requires sizes_fit { sizes corridor.now demands.now ≡ true }
    requires plan_len { length plan.now ≡ plan_length (links_of corridor.now) (steps_of demands.now) }
    ensures { answer_of result ≡ plan_bounds corridor.now demands.now plan.now }
{
    let corridor = lengths::inner::sized_corridor(corridor, demands);
    scan_plan(corridor, lists::inner::demands::steps_of(demands), plan)
}
