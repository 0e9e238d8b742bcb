// Runs a case on word lists, which the lines of its section tell: corridor c, demands d, plan p, record r, and lengths l.
// No function holds more than 64 KiB of lists; the compiler may join the frames.
use crate::calls::Case;
use trial::{content, line};

// The lengths are of corridor, demands, plan, proposed record, lent record and lent plan.
pub fn case(section: &[u8], told: &[u8]) {
    let mut lengths = [0u32; 6];
    line::make(&mut lengths, b'l', section);
    line::change(&mut lengths, b'l', told);
    given(section, told, &lengths);
}

// A corridor has room for kind 10 with N = 65, demands for kind 5 with K = 1,441 at N = 1.
fn given(section: &[u8], told: &[u8], lengths: &[u32; 6]) {
    let mut corridor = [0u32; 727];
    let mut demands = [0u32; 7206];
    let mut plan = [0u32; 5764];
    line::make(&mut corridor, b'c', section);
    line::make(&mut demands, b'd', section);
    line::make(&mut plan, b'p', section);
    proposed(
        section,
        told,
        lengths,
        content::lent_part(&mut corridor, lengths[0] as usize),
        content::lent_part(&mut demands, lengths[1] as usize),
        content::lent_part(&mut plan, lengths[2] as usize),
    );
}

// The record is the section's, or the plan's where none is told, and then come the changes of the case.
// It has room for kind 7 with K = 1,441 at N = 1.
fn proposed(
    section: &[u8],
    told: &[u8],
    lengths: &[u32; 6],
    corridor: &mut [u32],
    demands: &mut [u32],
    plan: &mut [u32],
) {
    let mut room = [0u32; 14422];
    let record = content::lent_part(&mut room, lengths[3] as usize);
    if line::make(record, b'r', section) == 0 {
        let _ = simulate::simulate(corridor, demands, plan, record);
    }
    line::change(corridor, b'c', told);
    line::change(demands, b'd', told);
    line::change(plan, b'p', told);
    line::change(record, b'r', told);
    let case = Case {
        told,
        corridor,
        demands,
        plan,
        record,
        record_length: lengths[4] as usize,
        plan_length: lengths[5] as usize,
    };
    case.run();
}
