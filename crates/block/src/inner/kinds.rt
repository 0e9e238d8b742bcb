// A kind's number, its list's length, and its own N or K; and the kind of a file or a list where a place takes more than one.
ghost use Rattle.std.specs.Prelude.{◌≡◌, cond, ◌*◌, ◌≤◌};
ghost use Rattle.block.specs.Kinds.{kind_number, list_length, own_agrees, later, kind_word, says_later, file_kind, list_kind};

use crate::Kind;
use crate::inner::size::Size;
use payload::inner::words::word_at;

// Word 0 of each block.
#[tactic(auto, unfolding(crate::specs::Kinds::kind_number))]
pub fn number_of(kind: Kind) -> u32
    ensures { result ≡ kind_number kind }
{
    kind as u32
}

// The words of rows of nodes of c words.
fn row_words(rows: usize, nodes: usize, c: usize) -> usize
    requires { (1 ≤ rows) × (rows ≤ 1441) × (1 ≤ nodes) × (nodes ≤ 65) × (1 ≤ c) × (c ≤ 5) }
    ensures { (result ≡ rows * (nodes * c)) × (1 ≤ result) × (result ≤ 1441 * (65 * c)) }
{
    rows * (nodes * c)
}

// The words of a list.
#[tactic(auto, unfolding(crate::specs::Kinds::list_length))]
pub fn length_of(kind: Kind, size: Size) -> usize
    ensures { (result ≡ list_length kind size.links size.steps) × (1 ≤ result) × (result ≤ 468327) }
{
    let nodes = size.links as usize + 1;
    let steps = size.steps as usize;
    match kind {
        Kind::Corridor => 1 + nodes * 9,
        Kind::CorridorDrop => 1 + nodes * 11,
        Kind::Demands => 1 + row_words(steps, nodes, 2),
        Kind::DemandsDownstream => 1 + row_words(steps, nodes, 2) + steps,
        Kind::Record => row_words(steps + 1, nodes, 4) + 2,
        Kind::RecordExits => row_words(steps + 1, nodes, 5) + 2,
        Kind::Plan => row_words(steps, nodes, 2),
    }
}

// Whether a list's first word is as told.
#[tactic(auto, unfolding(crate::specs::Kinds::own_agrees))]
pub fn own_agrees(kind: Kind, n: u32, k: u32, word: u32) -> bool
    ensures { result ≡ own_agrees kind n k word }
{
    match kind {
        Kind::Corridor | Kind::CorridorDrop => word == n,
        Kind::Demands | Kind::DemandsDownstream => word == k,
        Kind::Record | Kind::RecordExits | Kind::Plan => true,
    }
}

// Word 0 of a file's first block, 0 where the file ends before it does.
fn kind_word(file: &[u8]) -> u32
    ensures { result ≡ kind_word file.now }
{
    if file.len() >= 4 {
        return word_at(file, 0);
    }
    0
}

// The later kind that also fits the place of a kind, and the kind itself where none does.
#[tactic(auto, unfolding(crate::specs::Kinds::later))]
fn later(kind: Kind) -> Kind
    ensures { result ≡ later kind }
{
    match kind {
        Kind::Corridor | Kind::CorridorDrop => Kind::CorridorDrop,
        Kind::Demands | Kind::DemandsDownstream => Kind::DemandsDownstream,
        Kind::Record | Kind::RecordExits => Kind::RecordExits,
        Kind::Plan => Kind::Plan,
    }
}

// Whether a file says that it is of the later kind of its place.
pub fn says_later(kind: Kind, file: &[u8]) -> bool
    ensures { result ≡ says_later kind file.now }
{
    kind_word(file) == number_of(later(kind))
}

// The later kind of a place where it is chosen, else the oldest.
fn choose(chosen: bool, kind: Kind) -> Kind
    ensures { result ≡ cond chosen (later kind) kind }
{
    if chosen {
        return later(kind);
    }
    kind
}

// The kind that a file is read as, where `kind` is the oldest of its place.
pub fn file_kind(kind: Kind, file: &[u8]) -> Kind
    ensures { result ≡ file_kind kind file.now }
{
    choose(says_later(kind, file), kind)
}

// The kind of a list of `count` words, where `kind` is the oldest of its place.
pub fn list_kind(kind: Kind, size: Size, count: usize) -> Kind
    ensures { result ≡ list_kind kind size.links size.steps count }
{
    choose(count == length_of(later(kind), size), kind)
}
