// Prints the answer to an input, and the lines of an accepted one, on standard output. Each function is told whether a write has failed already, and
// goes through all of its text even so: the answer counts every byte of it, and a failure once told stays told.
ghost use Rattle.std.specs.Prelude.{◌≡◌, ◌+◌, ◌<◌, ◌≤◌, length};
ghost use Rattle.tables.specs.Answer.{Accepted, fault_number};
ghost use Rattle.printed.specs.Input.{links_in, steps_in, input_answer};
ghost use Rattle.normal.specs.Fits.{Gives};
ghost use Rattle.printed.specs.Text.{refused_line, head_line, plan_line, lines_of, step_text, plan_text, printed};

use printed::inner::{input, lines};
use tables::{Refusal, number_of};

// The file that is standard output.
const STDOUT_FILENO: i32 = 1;

// The bytes of the lines gone through, and whether a write has failed. A Result would not do: the bytes count even after a failed write (`Gives`).
#[derive(Clone, Copy)]
pub struct Given {
    pub bytes: usize,
    pub failed: bool,
}

// All that is written goes through here. After a failed write nothing more is written, so that what stands on standard output is always a prefix of
// the text.
fn hand_over(line: &[u8], failed: bool) -> Given
    ensures { Gives line.now failed result }
{
    let bytes = line.len();
    if failed {
        return Given { bytes, failed };
    }
    let written = io::write_all(STDOUT_FILENO, line);
    Given {
        bytes,
        failed: !written,
    }
}

// A refusal.
fn print_refused(refusal: Refusal, failed: bool) -> Given
    ensures { Gives (refused_line (fault_number refusal.fault) refusal.row refusal.node) failed result }
{
    let line = lines::refused_line(number_of(refusal.fault), refusal.row, refusal.node);
    hand_over(line.text(), failed)
}

// The first line.
fn print_head(input: &[u8], failed: bool) -> Given
    requires { input_answer input.now ≡ Accepted }
    ensures { Gives (head_line input.now) failed result × (result.bytes ≤ 128) }
{
    let line = lines::head_line(input);
    hand_over(line.text(), failed)
}

// The line of node i at step k.
fn print_node(input: &[u8], k: usize, i: usize, failed: bool) -> Given
    requires accepted { input_answer input.now ≡ Accepted }
    requires k_bound { (k < steps_in input.now) × (i ≤ links_in input.now) }
    ensures { Gives (plan_line input.now k i) failed result × (result.bytes ≤ 128) }
{
    let line = lines::plan_line(input, k, i);
    hand_over(line.text(), failed)
}

// The lines of step k.
fn print_step(input: &[u8], nodes: usize, k: usize, mut failed: bool) -> Given
    requires accepted { input_answer input.now ≡ Accepted }
    requires k_bound { (k < steps_in input.now) × (nodes ≡ links_in input.now + 1) × (nodes ≤ 65) }
    ensures { Gives (step_text input.now k) failed result × (result.bytes ≤ 8320) }
{
    let mut bytes = 0;
    for i in 0..nodes {
        let line = print_node(input, k, i, failed);
        bytes += line.bytes;
        failed = line.failed;
    }
    Given { bytes, failed }
}

// The lines of all steps.
fn print_steps(input: &[u8], nodes: usize, steps: usize, mut failed: bool) -> Given
    requires accepted { input_answer input.now ≡ Accepted }
    requires nodes_value { (nodes ≡ links_in input.now + 1) × (nodes ≤ 65) }
    requires steps_value { (steps ≡ steps_in input.now) × (steps ≤ 1440) }
    ensures { Gives (lines_of (steps_in input.now) (step_text input.now)) failed result × (result.bytes ≤ 11980800) }
{
    let mut bytes = 0;
    for k in 0..steps {
        let step = print_step(input, nodes, k, failed);
        bytes += step.bytes;
        failed = step.failed;
    }
    Given { bytes, failed }
}

// The lines of an accepted input.
fn print_plan(input: &[u8], failed: bool) -> Given
    requires { input_answer input.now ≡ Accepted }
    ensures { Gives (plan_text input.now) failed result }
{
    let first = print_head(input, failed);
    let size = input::files_in(input).size;
    let nodes = size.links as usize + 1;
    let rest = print_steps(input, nodes, size.steps as usize, first.failed);
    Given {
        bytes: first.bytes + rest.bytes,
        failed: rest.failed,
    }
}

// All that is printed for an input.
pub fn print_answer(input: &[u8]) -> Given
    ensures { result.bytes ≡ length (printed input.now) }
{
    match input::input_answer(input) {
        Ok(()) => print_plan(input, false),
        Err(refusal) => print_refused(refusal, false),
    }
}
