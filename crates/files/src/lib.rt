// Checker and converter on block files: the bytes stay where they are, and a step's rows are unpacked when they are needed.
#![tactic(auto)]

ghost use Rattle.std.specs.Prelude.{◌≡◌, length};
ghost use Rattle.tables.specs.Answer.{answer_of};
ghost use Rattle.files.specs.Files.{check_files, convert_files, plan_written};

use crate::inner::answers::{Files, ReadFiles, room_fits};
use crate::inner::plans;
use block::inner::size;
use tables::{Answer, sized};

pub mod inner;

// Checks a proposed record, with its corridor and its demands.
pub fn check_files(n: u32, k: u32, corridor: &[u8], demands: &[u8], recorded: &[u8]) -> Answer
    ensures { answer_of result ≡ check_files n k corridor.now demands.now recorded.now }
{
    let size = size::told(n, k)?;
    let files = Files {
        corridor,
        demands,
        recorded,
    };
    files.read_then_check(size)
}

// Checks a proposed record and writes the file of the plan that has it.
pub fn convert_files(
    n: u32,
    k: u32,
    corridor: &[u8],
    demands: &[u8],
    recorded: &[u8],
    plan: &mut [u8],
) -> Answer
    ensures answered { answer_of result ≡ convert_files n k corridor.now demands.now recorded.now (length plan.old) }
    ensures written { plan.new ≡ plan_written n k corridor.now demands.now recorded.now plan.old }
{
    sized(room_fits(n, k, plan.len()))?;
    let size = size::told(n, k)?;
    let files = Files {
        corridor,
        demands,
        recorded,
    };
    files.read_then_check(size)?;
    plans::write_plan(ReadFiles { files, size }, plan);
    Ok(())
}
