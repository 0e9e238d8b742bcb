// Checker and converter of a proposed record, and the normal form of a plan.
#![tactic(auto)]

ghost use Rattle.std.specs.Prelude.{◌≡◌, length};
ghost use Rattle.tables.specs.Answer.{answer_of};
ghost use Rattle.convert.specs.Convert.{check_answer, convert_answer, normal_answer, plan_left, work_left, normal_left};

use crate::inner::{proposal, scans};
use tables::{Answer, sized};

pub mod inner;

// Checks a proposed record.
pub fn check(corridor: &[u32], demands: &[u32], words: &[u32]) -> Answer
    ensures { answer_of result ≡ check_answer corridor.now demands.now words.now }
{
    sized(scans::record_fits(corridor, demands, words.len()))?;
    scans::contents(corridor, demands, words)
}

// Checks a proposed record and writes the plan that has it.
pub fn convert(corridor: &[u32], demands: &[u32], words: &[u32], plan: &mut [u32]) -> Answer
    ensures answered { answer_of result ≡ convert_answer corridor.now demands.now words.now (length plan.old) }
    ensures written { plan.new ≡ plan_left corridor.now demands.now words.now plan.old }
{
    sized(scans::normal_fits(corridor, demands, plan.len()))?;
    check(corridor, demands, words)?;
    proposal::proposed(corridor, demands, words).write_plan(plan);
    Ok(())
}

// Simulates the plan into `work`, then writes the plan that the converter returns for that record.
pub fn normal_form(
    corridor: &[u32],
    demands: &[u32],
    plan: &[u32],
    work: &mut [u32],
    normal: &mut [u32],
) -> Answer
    ensures answered { answer_of result ≡ normal_answer corridor.now demands.now plan.now (length work.old) (length normal.old) }
    ensures worked { work.new ≡ work_left corridor.now demands.now plan.now work.old (length normal.old) }
    ensures written { normal.new ≡ normal_left corridor.now demands.now plan.now (length work.old) normal.old }
{
    sized(scans::normal_fits(corridor, demands, normal.len()))?;
    simulate::simulate(corridor, demands, plan, work)?;
    convert(corridor, demands, work, normal)
}
