// What a call answers: nothing more where it accepts, else a refusal, which is a fault and its place.
#![tactic(auto)]

ghost use Rattle.std.specs.Prelude.{◌≡◌};
ghost use Rattle.tables.specs.Answer.{fault_number, fault_of, answer_of, refusal, unless, sized};

pub mod inner;

// What a call refuses, by the numbers of docs/MODEL.md.
#[derive(Clone, Copy, PartialEq, Eq)]
pub enum Fault {
    Size = 1,
    Link = 2,
    Ramp = 3,
    Start = 4,
    Demand = 5,
    Plan = 6,
    Fixed = 7,
    Sending = 8,
    Receiving = 9,
    Offer = 10,
    Moved = 11,
    Queue = 12,
    Cost = 13,
    Bytes = 14,
    Check = 15,
    Kind = 16,
    Number = 17,
    Padding = 18,
}

// A fault with its row and its node.
#[derive(Clone, Copy, PartialEq, Eq)]
pub struct Refusal {
    pub fault: Fault,
    pub row: u32,
    pub node: u32,
}

pub type Answer = Result<(), Refusal>;

// A fault's number.
pub fn number_of(fault: Fault) -> u32
    ensures { result ≡ fault_number fault }
{
    fault as u32
}

// A fault, unless the test holds.
pub fn unless(holds: bool, fault: Fault) -> Result<(), Fault>
    ensures { fault_of result ≡ unless holds (fault_number fault) }
{
    if holds {
        return Ok(());
    }
    Err(fault)
}

// What a test finds at a place, as an answer.
pub fn placed(test: Result<(), Fault>, row: u32, node: u32) -> Answer
    ensures { answer_of result ≡ refusal (fault_of test) row node }
{
    test.map_err(|fault| Refusal { fault, row, node })
}

// Refusal 1, unless all sizes are right.
pub fn sized(fits: bool) -> Answer
    ensures { answer_of result ≡ sized fits }
{
    placed(unless(fits, Fault::Size), 0, 0)
}

// What a search by halving comes to: the one rate left, and how many rates were tried.
#[derive(Clone, Copy)]
pub struct Halved {
    pub rate: u32,
    pub tries: u32,
}
