// Block files: a reader and a writer of corridors, of demands, of records and of plans, told N and K. Each is a public call by name, which
// docs/PROMISES.md lists and a function that C calls has for its own; one reader and one writer stand below them.
#![tactic(auto)]

pub mod inner;

ghost use Rattle.std.specs.Prelude.{◌≡◌, length};
ghost use Rattle.tables.specs.Answer.{answer_of};
ghost use Rattle.block.specs.declared.Kind.TheVariants.{Corridor, Demands, Record, Plan};
ghost use Rattle.block.specs.Kinds.{file_kind, list_kind};
ghost use Rattle.block.specs.Calls.{read_answer, words_read, write_answer, file_written};

use inner::calls;
use tables::Answer;

// What a file holds, by the number in word 0 of each of its blocks.
#[derive(Clone, Copy)]
pub enum Kind {
    Corridor = 1,
    // A corridor with dropped capacity and drop density at each node's end.
    CorridorDrop = 10,
    Demands = 2,
    // Demands with the flow that may leave link N, by step.
    DemandsDownstream = 5,
    Record = 3,
    // A record with the off-ramp flow at each node's end.
    RecordExits = 7,
    Plan = 4,
}

// A corridor out of a file: word 0 of its first block chooses its kind, and a list lent for the other kind has a wrong length.
pub fn read_corridor(n: u32, k: u32, file: &[u8], words: &mut [u32]) -> Answer
    ensures answered { answer_of result ≡ read_answer (file_kind Corridor file.now) n k file.now (length words.old) }
    ensures lent { words.new ≡ words_read (file_kind Corridor file.now) n k file.now words.old }
{
    calls::read_chosen(Kind::Corridor, n, k, file, words)
}

// A corridor into a file: its length chooses the kind.
pub fn write_corridor(n: u32, k: u32, words: &[u32], file: &mut [u8]) -> Answer
    ensures answered { answer_of result ≡ write_answer (list_kind Corridor n k (length words.now)) n k words.now (length file.old) }
    ensures lent { file.new ≡ file_written (list_kind Corridor n k (length words.now)) n k words.now file.old }
{
    calls::write_chosen(Kind::Corridor, n, k, words, file)
}

// Demands out of a file: their kind is chosen in the same way.
pub fn read_demands(n: u32, k: u32, file: &[u8], words: &mut [u32]) -> Answer
    ensures answered { answer_of result ≡ read_answer (file_kind Demands file.now) n k file.now (length words.old) }
    ensures lent { words.new ≡ words_read (file_kind Demands file.now) n k file.now words.old }
{
    calls::read_chosen(Kind::Demands, n, k, file, words)
}

// Demands into a file: their length chooses the kind.
pub fn write_demands(n: u32, k: u32, words: &[u32], file: &mut [u8]) -> Answer
    ensures answered { answer_of result ≡ write_answer (list_kind Demands n k (length words.now)) n k words.now (length file.old) }
    ensures lent { file.new ≡ file_written (list_kind Demands n k (length words.now)) n k words.now file.old }
{
    calls::write_chosen(Kind::Demands, n, k, words, file)
}

// A record out of a file: its kind is chosen in the same way.
pub fn read_record(n: u32, k: u32, file: &[u8], words: &mut [u32]) -> Answer
    ensures answered { answer_of result ≡ read_answer (file_kind Record file.now) n k file.now (length words.old) }
    ensures lent { words.new ≡ words_read (file_kind Record file.now) n k file.now words.old }
{
    calls::read_chosen(Kind::Record, n, k, file, words)
}

// A record into a file: its length chooses the kind.
pub fn write_record(n: u32, k: u32, words: &[u32], file: &mut [u8]) -> Answer
    ensures answered { answer_of result ≡ write_answer (list_kind Record n k (length words.now)) n k words.now (length file.old) }
    ensures lent { file.new ≡ file_written (list_kind Record n k (length words.now)) n k words.now file.old }
{
    calls::write_chosen(Kind::Record, n, k, words, file)
}

// A plan out of a file: its place has one kind.
pub fn read_plan(n: u32, k: u32, file: &[u8], words: &mut [u32]) -> Answer
    ensures answered { answer_of result ≡ read_answer Plan n k file.now (length words.old) }
    ensures lent { words.new ≡ words_read Plan n k file.now words.old }
{
    calls::read_list(Kind::Plan, n, k, file, words)
}

// A plan into a file.
pub fn write_plan(n: u32, k: u32, words: &[u32], file: &mut [u8]) -> Answer
    ensures answered { answer_of result ≡ write_answer Plan n k words.now (length file.old) }
    ensures lent { file.new ≡ file_written Plan n k words.now file.old }
{
    calls::write_list(Kind::Plan, n, k, words, file)
}
