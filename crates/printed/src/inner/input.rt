// The answer to an input: N, K and the kinds of corridor, demands and record are taken from the files themselves, then the files are read in
// turn and the record is checked.
ghost use Rattle.std.specs.Prelude.{◌≡◌, ◌-◌, ◌*◌, ◌≤◌, length, take, drop};
ghost use Rattle.tables.specs.Answer.{Accepted, answer_of};
ghost use Rattle.payload.specs.File.{blocks_for};
ghost use Rattle.seals.specs.Reading.{tested};
ghost use Rattle.block.specs.declared.Kind.TheVariants.{Demands};
ghost use Rattle.block.specs.Kinds.{list_length, file_kind};
ghost use Rattle.file_rows.specs.Words.{corridor_count};
ghost use Rattle.printed.specs.Input.{links_in, steps_in, demands_block, corridor_file, demands_file, record_file, input_answer};
ghost use Rattle.printed.specs.Fits.{files_left, steps_left, Laid};

use block::Kind;
use block::inner::kinds;
use block::inner::size::{self, Size};
use files::inner::answers::{Files, ReadFiles};
use payload::inner::words;
use seals::inner::reading;
use tables::{Answer, Fault, placed, unless};

// The places in bytes where the demands and the record start.
#[derive(Clone, Copy)]
pub struct Layout {
    pub demands: usize,
    pub recorded: usize,
}

impl Layout {
    // The three files of an input.
    fn files<'a>(self, input: &'a [u8]) -> Files<'a>
        requires { (self.demands ≤ self.recorded) × (self.recorded ≤ length input.now) }
        ensures corridor { result.corridor.now ≡ take self.demands input.now }
        ensures demands { result.demands.now ≡ take (self.recorded - self.demands) (drop self.demands input.now) }
        ensures recorded { result.recorded.now ≡ drop self.recorded input.now }
    {
        Files {
            corridor: &input[..self.demands],
            demands: &input[self.demands..self.recorded],
            recorded: &input[self.recorded..],
        }
    }
}

// Refusal 14, unless the input has the bytes that it must have.
fn enough(bytes: bool) -> Answer
    ensures { answer_of result ≡ tested bytes 14 0 }
{
    placed(unless(bytes, Fault::Bytes), 0, 0)
}

// How many blocks a kind's file has.
fn blocks_of(kind: Kind, size: Size) -> usize
    ensures { (result ≡ blocks_for (list_length kind size.links size.steps)) × (result ≤ 3747) }
{
    reading::blocks_for(kinds::length_of(kind, size))
}

// How many blocks the corridor has with which an input starts.
fn corridor_blocks(input: &[u8], links: u32) -> usize
    requires { links ≤ 64 }
    ensures { (result ≡ blocks_for (corridor_count links input.now)) × (result ≤ 6) }
{
    reading::blocks_for(file_rows::inner::corridor_count(links as usize, input))
}

// The kind of the file that starts at a byte of the input, where `kind` is the oldest of its place; it is this one where the input ends before.
fn kind_at(kind: Kind, input: &[u8], at: usize) -> Kind
    ensures { result ≡ file_kind kind (drop at input.now) }
{
    match input.get(at..) {
        Some(file) => kinds::file_kind(kind, file),
        None => kind,
    }
}

// Where the files start, with demands that start with a block.
fn layout_of(input: &[u8], block: usize, size: Size) -> Layout
    requires { block ≤ 6 }
    ensures laid { Laid block (file_kind Demands (drop (block * 512) input.now)) size.links size.steps result }
    ensures bounds { (result.demands ≤ result.recorded) × (result.recorded ≤ 1921536) }
{
    let demands = block * 512;
    let kind = kind_at(Kind::Demands, input, demands);
    let recorded = demands + blocks_of(kind, size) * 512;
    Layout { demands, recorded }
}

// The files of an accepted input.
pub fn files_in<'a>(input: &'a [u8]) -> ReadFiles<'a>
    requires { input_answer input.now ≡ Accepted }
    ensures size { (result.size.links ≡ links_in input.now) × (result.size.steps ≡ steps_in input.now) }
    ensures corridor { result.files.corridor.now ≡ corridor_file input.now }
    ensures demands { result.files.demands.now ≡ demands_file input.now }
    ensures recorded { result.files.recorded.now ≡ record_file input.now }
{
    let links = words::word_at(input, 2);
    let block = corridor_blocks(input, links);
    let steps = words::word_at(input, block * 128 + 2);
    let size = Size { links, steps };
    let files = layout_of(input, block, size).files(input);
    ReadFiles { files, size }
}

// What is left to refuse once N and K are good.
fn files_left(input: &[u8], block: usize, size: Size) -> Answer
    requires block_value { (block ≡ demands_block input.now) × (block ≤ 6) }
    requires size_value { (size.links ≡ links_in input.now) × (size.steps ≡ steps_in input.now) }
    ensures { answer_of result ≡ files_left input.now }
{
    let at = layout_of(input, block, size);
    let kind = kind_at(Kind::Record, input, at.recorded);
    enough(input.len() == at.recorded + blocks_of(kind, size) * 512)?;
    at.files(input).read_then_check(size)
}

// What is left to refuse once N is good.
fn steps_left(input: &[u8], links: u32) -> Answer
    requires told { (1 ≤ links) × (links ≤ 64) }
    requires links_value { links ≡ links_in input.now }
    ensures { answer_of result ≡ steps_left input.now }
{
    let block = corridor_blocks(input, links);
    enough(input.len() >= block * 512 + 12)?;
    let k = words::word_at(input, block * 128 + 2);
    let size = size::told(links, k)?;
    files_left(input, block, size)
}

// The answer to an input of any length. N is tested beside a K that is good.
pub fn input_answer(input: &[u8]) -> Answer
    ensures { answer_of result ≡ input_answer input.now }
{
    enough(input.len() <= 65536)?;
    enough(input.len() >= 12)?;
    let n = words::word_at(input, 2);
    size::told(n, 1)?;
    steps_left(input, n)
}
