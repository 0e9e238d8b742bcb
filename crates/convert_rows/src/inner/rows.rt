// The checker on the rows of one step: the first node of a row with refusal 7, and of a step with one of 8 to 12.
ghost use Rattle.std.specs.Prelude.{◌≡◌, suc, ◌≤◌, ◌<◌};
ghost use Rattle.tables.specs.Answer.{answer_of, refusal};
ghost use Rattle.tables.specs.First.{first_node};
ghost use Rattle.lists.specs.Fits.{RowFits, NodeIn};
ghost use Rattle.link_table.specs.Table.{table_of};
ghost use Rattle.simulate_rows.specs.Rows.{row_cost};
ghost use Rattle.convert_rows.specs.Rows.{fixed_fault_in, step_fault_in, RowsKept};

use crate::inner::step::{Step, StepRows};
use lists::inner::corridor::Corridor;
use lists::inner::demands::Demand;
use lists::inner::record::Row;
use tables::inner::first;
use tables::{Answer, placed};

// What is found of a step: the first refusal, and the vehicles and queues of the state after it, which stand in its promise also where the step is
// refused, so that a Result cannot say them.
#[derive(Clone, Copy)]
pub struct Found {
    pub answer: Answer,
    pub cost: u64,
}

// Refusal 7 at node i, in the record's row k.
fn fixed_answer(corridor: Corridor<'_>, steps: usize, k: usize, row: Row<'_>, i: usize) -> Answer
    requires { (k ≤ 1440) × (i ≤ corridor.links) × NodeIn row.width row.words.now i }
    ensures { answer_of result
        ≡ refusal (fixed_fault_in row.entry.width corridor.entry.words.now corridor.entry.links steps k row.entry.words.now i) k i }
{
    let fault = record_faults::inner::fixed_fault(
        corridor.links,
        steps,
        k,
        i,
        corridor.start(i),
        row.state(i),
        row.flows(i),
        row.exit(i),
    );
    placed(fault, k as u32, i as u32)
}

// The first node of the record's row k with refusal 7, node by node.
fn fixed_nodes(corridor: Corridor<'_>, steps: usize, k: usize, row: Row<'_>) -> Answer
    requires { (k ≤ 1440) × RowFits row.width row.words.now corridor.links }
    ensures { answer_of result
        ≡ first_node (suc corridor.entry.links) k
        (fixed_fault_in row.entry.width corridor.entry.words.now corridor.entry.links steps k row.entry.words.now) }
{
    first(
        corridor.nodes(),
        |i| fixed_answer(corridor, steps, k, row, i),
    )
}

// The same in a row between states 0 and K, where zero is fixed at nodes 0 and N alone.
fn fixed_ends(corridor: Corridor<'_>, steps: usize, k: usize, row: Row<'_>) -> Answer
    requires k_bound { (k ≤ 1440) × RowFits row.width row.words.now corridor.links }
    requires k_nonzero { (0 < k) × (k < steps) }
    ensures { answer_of result
        ≡ first_node (suc corridor.entry.links) k
        (fixed_fault_in row.entry.width corridor.entry.words.now corridor.entry.links steps k row.entry.words.now) }
{
    fixed_answer(corridor, steps, k, row, 0)?;
    fixed_answer(corridor, steps, k, row, corridor.links)
}

// The first node of the record's row k with refusal 7.
pub fn fixed_row(corridor: Corridor<'_>, steps: usize, k: usize, row: Row<'_>) -> Answer
    requires { (k ≤ 1440) × RowFits row.width row.words.now corridor.links }
    ensures { answer_of result
        ≡ first_node (suc corridor.entry.links) k
        (fixed_fault_in row.entry.width corridor.entry.words.now corridor.entry.links steps k row.entry.words.now) }
{
    if 0 < k && k < steps {
        return fixed_ends(corridor, steps, k, row);
    }
    fixed_nodes(corridor, steps, k, row)
}

// The first node of step k with one of refusals 8 to 12, and the vehicles and queues of the state after the step. Only a step that fails the quick
// test is looked at node by node.
pub fn step_row(
    corridor: Corridor<'_>,
    table: &[u32],
    k: usize,
    demand: Demand<'_>,
    row: Row<'_>,
    after: Row<'_>,
) -> Found
    requires rows_kept { RowsKept row.width corridor.words.now demand.row.now row.words.now corridor.links }
    requires row_fits { RowFits row.width after.words.now corridor.links × (k ≤ 1440)
        × (table.now ≡ table_of corridor.words.now corridor.links) }
    requires width { after.width ≡ row.width }
    ensures found { answer_of result.answer
        ≡ first_node (suc corridor.entry.links) k
        (step_fault_in row.entry.width corridor.entry.words.now demand.entry.row.now demand.entry.downstream.0 row.entry.words.now
        after.entry.words.now) }
    ensures adds { (result.cost ≡ row_cost row.entry.width corridor.entry.links after.entry.words.now)
        × (result.cost ≤ 558345748350) }
{
    let rows = StepRows {
        table,
        links: corridor.links,
        demand,
        row,
        after,
    };
    if let Some(cost) = rows.moves() {
        return Found {
            answer: Ok(()),
            cost,
        };
    }
    let step = Step {
        corridor,
        k,
        demand,
        row,
        after,
    };
    Found {
        answer: step.nodes(),
        cost: simulate_rows::inner::row_cost(corridor.links, after),
    }
}
