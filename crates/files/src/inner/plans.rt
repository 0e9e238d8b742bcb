// The plan file of a record that is accepted: each step's row is put where it stands, then the blocks are sealed.
ghost use Rattle.std.specs.Prelude.{◌≡◌, ◌+◌, ◌*◌, ◌<◌, length};
ghost use Rattle.tables.specs.Answer.{Accepted};
ghost use Rattle.lists.specs.Words.{road_of, plan_length};
ghost use Rattle.convert.specs.Refusals.{judged};
ghost use Rattle.convert.specs.Convert.{converted_by};
ghost use Rattle.payload.specs.File.{payload_of, put_payload};
ghost use Rattle.payload.specs.Word.{Words};
ghost use Rattle.file_rows.specs.Words.{demands_in, record_in};
ghost use Rattle.file_rows.specs.Rows.{Holds};
ghost use Rattle.files.specs.Files.{plan_file};
ghost use Rattle.files.specs.Fits.{Accepts, plan_row_in};

use crate::inner::answers::ReadFiles;
use block::Kind;
use block::inner::kinds;
use file_scans::inner::proposal::FileProposal;
use lists::inner::demands::Demand;
use lists::inner::record::Row;
use lists::inner::rows;
use payload::inner::place;
use seals::inner::sealing;

// The settings of step k, put into the plan file.
fn put_step(proposal: FileProposal<'_>, k: usize, plan: &mut [u8])
    requires judges { judged proposal.record.width
        (road_of proposal.corridor.words.now
        (demands_in proposal.corridor.links proposal.demands.steps proposal.demands.bytes.now))
        (record_in proposal.record.width proposal.corridor.links proposal.demands.steps proposal.record.bytes.now)
        ≡ Accepted }
    requires k_lt_steps { (k < proposal.demands.steps) × Holds (plan_length proposal.corridor.links proposal.demands.steps) plan.old }
    ensures put { plan.new
        ≡ put_payload plan.old (k * ((proposal.entry.corridor.links + 1) * 2))
        (plan_row_in proposal.entry.record.width proposal.entry.corridor.words.now proposal.entry.corridor.links
        proposal.entry.demands.steps proposal.entry.demands.bytes.now proposal.entry.record.bytes.now k) }
    ensures words { Words
        (plan_row_in proposal.entry.record.width proposal.entry.corridor.words.now proposal.entry.corridor.links
        proposal.entry.demands.steps proposal.entry.demands.bytes.now proposal.entry.record.bytes.now k) }
{
    let width = proposal.record.width;
    let narrow = proposal.corridor.nodes() * 2;
    let wide = proposal.corridor.nodes() * width;
    let mut demand_room = [0u32; 130];
    let row = &mut demand_room[..narrow];
    proposal.demands.row(k, row);
    let downstream = proposal.demands.downstream(k);
    let mut room = [0u32; 325];
    let words = &mut room[..wide];
    proposal.record.row(k, words);
    let mut plan_room = [0u32; 130];
    let out = &mut plan_room[..narrow];
    convert_rows::inner::plans::plan_row(
        proposal.corridor,
        Demand { row, downstream },
        Row { words, width },
        out,
    );
    place::put(plan, rows::row_at(k, narrow, proposal.demands.steps), out);
}

// The settings of all steps, put into the plan file.
fn put_steps(proposal: FileProposal<'_>, plan: &mut [u8])
    requires judges { judged proposal.record.width
        (road_of proposal.corridor.words.now
        (demands_in proposal.corridor.links proposal.demands.steps proposal.demands.bytes.now))
        (record_in proposal.record.width proposal.corridor.links proposal.demands.steps proposal.record.bytes.now)
        ≡ Accepted }
    requires holds { Holds (plan_length proposal.corridor.links proposal.demands.steps) plan.old }
    ensures put { payload_of (plan_length proposal.entry.corridor.links proposal.entry.demands.steps) plan.new
        ≡ converted_by proposal.entry.record.width proposal.entry.corridor.words.now
        (demands_in proposal.entry.corridor.links proposal.entry.demands.steps proposal.entry.demands.bytes.now)
        (record_in proposal.entry.record.width proposal.entry.corridor.links proposal.entry.demands.steps proposal.entry.record.bytes.now) }
    ensures holds { Holds (plan_length proposal.entry.corridor.links proposal.entry.demands.steps) plan.new }
{
    for k in 0..proposal.demands.steps {
        put_step(proposal, k, plan);
    }
}

// The plan file of files that the checker accepts.
pub fn write_plan(read: ReadFiles<'_>, plan: &mut [u8])
    requires accepts { Accepts read.size.links read.size.steps read.files.corridor.now read.files.demands.now read.files.recorded.now }
    requires holds { Holds (plan_length read.size.links read.size.steps) plan.old }
    ensures { plan.new
        ≡ plan_file read.entry.size.links read.entry.size.steps read.entry.files.corridor.now read.entry.files.demands.now
        read.entry.files.recorded.now }
{
    let mut room = [0u32; 716];
    let proposal = read.proposal(&mut room);
    put_steps(proposal, plan);
    let count = kinds::length_of(Kind::Plan, read.size);
    sealing::seal(kinds::number_of(Kind::Plan), count, plan);
}
