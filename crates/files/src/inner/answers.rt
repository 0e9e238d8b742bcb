// All that the calls refuse where N and K are good: the three files in turn, then the words in them.
ghost use Rattle.std.specs.Prelude.{◌≡◌, ◌&&◌, ◌*◌, ◌≤◌, eqb, length};
ghost use Rattle.tables.specs.Answer.{Accepted, answer_of};
ghost use Rattle.lists.specs.Words.{road_of, plan_length};
ghost use Rattle.list_scans.specs.Refusals.{ranges};
ghost use Rattle.payload.specs.File.{blocks_for};
ghost use Rattle.block.specs.Calls.{told_fits};
ghost use Rattle.file_rows.specs.Words.{corridor_in, demands_in, file_width};
ghost use Rattle.files.specs.Files.{files_answer, read_then_check};
ghost use Rattle.files.specs.Fits.{FilesFit, words_answer};

use block::Kind;
use block::inner::size::{self, Size};
use block::inner::{calls, kinds};
use file_rows::inner::demands::FileDemands;
use file_rows::inner::record::FileRecord;
use file_scans::inner::proposal::FileProposal;
use lists::inner::corridor::Corridor;
use payload::inner::place;
use seals::inner::reading;
use tables::Answer;

// The three files of a call.
#[derive(Clone, Copy)]
pub struct Files<'a> {
    pub corridor: &'a [u8],
    pub demands: &'a [u8],
    pub recorded: &'a [u8],
}

// Files that are read, told N and K: no refusal of 14 to 18 is due, and their own N and K are as told.
#[derive(Clone, Copy)]
pub struct ReadFiles<'a> {
    pub files: Files<'a>,
    pub size: Size,
    pub ghost fit: { FilesFit size.links size.steps files.corridor.now files.demands.now files.recorded.now },
}

// How many bytes a plan file has.
fn plan_bytes(size: Size) -> usize
    ensures { result ≡ blocks_for (plan_length size.links size.steps) * 512 }
{
    reading::blocks_for(kinds::length_of(Kind::Plan, size)) * 512
}

// Whether N and K are good and `room` bytes are a plan file's.
pub fn room_fits(n: u32, k: u32, room: usize) -> bool
    ensures { result ≡ (told_fits n k && eqb room (blocks_for (plan_length n k) * 512)) }
{
    match size::told(n, k) {
        Ok(size) => room == plan_bytes(size),
        Err(_) => false,
    }
}

impl Files<'_> {
    // The three files in turn.
    fn answer(self, size: Size) -> Answer
        ensures { answer_of result
            ≡ files_answer size.links size.steps self.entry.corridor.now self.entry.demands.now self.entry.recorded.now }
    {
        let corridor = kinds::file_kind(Kind::Corridor, self.corridor);
        calls::file_answer(corridor, size, self.corridor)?;
        let demands = kinds::file_kind(Kind::Demands, self.demands);
        calls::file_answer(demands, size, self.demands)?;
        let recorded = kinds::file_kind(Kind::Record, self.recorded);
        calls::file_answer(recorded, size, self.recorded)
    }

    // All that the checker refuses where N and K are good.
    pub fn read_then_check(self, size: Size) -> Answer
        ensures { answer_of result
            ≡ read_then_check size.links size.steps self.entry.corridor.now self.entry.demands.now self.entry.recorded.now }
    {
        self.answer(size)?;
        let read = ReadFiles { files: self, size };
        read.contents()
    }
}

impl<'a> ReadFiles<'a> {
    // The corridor, its words unpacked into a room.
    fn corridor(self, room: &'a mut [u32]) -> Corridor<'a>
        requires { 716 ≤ length room.old }
        ensures words { result.words.now ≡ corridor_in self.entry.size.links self.entry.files.corridor.now }
        ensures links { result.links ≡ self.entry.size.links }
    {
        let links = self.size.links as usize;
        let count = file_rows::inner::corridor_count(links, self.files.corridor);
        let words = &mut room[..count];
        place::unpack(self.files.corridor, 0, words);
        Corridor { words, links }
    }

    // The demands, where they stand.
    fn demands(self) -> FileDemands<'a>
        ensures bytes { result.bytes.now ≡ self.entry.files.demands.now }
        ensures told { (result.links ≡ self.entry.size.links) × (result.steps ≡ self.entry.size.steps) }
    {
        FileDemands {
            bytes: self.files.demands,
            links: self.size.links as usize,
            steps: self.size.steps as usize,
        }
    }

    // The record, where it stands.
    pub fn record(self) -> FileRecord<'a>
        ensures bytes { result.bytes.now ≡ self.entry.files.recorded.now }
        ensures told { (result.links ≡ self.entry.size.links) × (result.steps ≡ self.entry.size.steps) }
        ensures width { result.width ≡ file_width self.entry.files.recorded.now }
    {
        FileRecord {
            bytes: self.files.recorded,
            links: self.size.links as usize,
            steps: self.size.steps as usize,
            width: file_rows::inner::record_width(self.files.recorded),
        }
    }

    // The proposed record, where no refusal of 2 to 5 is due.
    pub fn proposal(self, room: &'a mut [u32]) -> FileProposal<'a>
        requires room_len { 716 ≤ length room.old }
        requires ranged { ranges
            (road_of (corridor_in self.size.links self.files.corridor.now)
            (demands_in self.size.links self.size.steps self.files.demands.now))
            ≡ Accepted }
        ensures corridor { result.corridor.words.now ≡ corridor_in self.entry.size.links self.entry.files.corridor.now }
        ensures demands { result.demands.bytes.now ≡ self.entry.files.demands.now }
        ensures record { result.record.bytes.now ≡ self.entry.files.recorded.now }
        ensures told { (result.corridor.links ≡ self.entry.size.links) × (result.demands.steps ≡ self.entry.size.steps) }
        ensures width { result.record.width ≡ file_width self.entry.files.recorded.now }
    {
        FileProposal {
            corridor: self.corridor(room),
            demands: self.demands(),
            record: self.record(),
        }
    }

    // The words in the files.
    fn contents(self) -> Answer
        ensures { answer_of result
            ≡ words_answer self.entry.size.links self.entry.size.steps self.entry.files.corridor.now self.entry.files.demands.now
            self.entry.files.recorded.now }
    {
        let mut room = [0u32; 716];
        let corridor = self.corridor(&mut room);
        let demands = self.demands();
        file_scans::inner::ranges(corridor, demands)?;
        let proposal = FileProposal {
            corridor,
            demands,
            record: self.record(),
        };
        proposal.judged()
    }
}
