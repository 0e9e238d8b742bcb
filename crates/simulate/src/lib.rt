// The simulator: the record of a plan.
#![tactic(auto)]

ghost use Rattle.std.specs.Prelude.{◌≡◌, length};
ghost use Rattle.tables.specs.Answer.{answer_of};
ghost use Rattle.simulate.specs.Simulate.{simulate_answer, record_left};

pub mod inner;

use tables::Answer;

// Fills `record` with the record of the plan; or refuses by 1 to 6, and leaves it as it is.
pub fn simulate(corridor: &[u32], demands: &[u32], plan: &[u32], record: &mut [u32]) -> Answer
    ensures answered { answer_of result ≡ simulate_answer corridor.now demands.now plan.now (length «record».old) }
    ensures written { «record».new ≡ record_left corridor.now demands.now plan.now «record».old }
{
    inner::answer::refused(corridor, demands, plan, record.len())?;
    inner::run::write_record(corridor, demands, plan, record);
    Ok(())
}
