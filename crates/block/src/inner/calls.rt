// The one reader and the one writer of all kinds.
ghost use Rattle.std.specs.Prelude.{◌≡◌, ◌&&◌, ◌≤◌, eqb, length, get_or};
ghost use Rattle.tables.specs.Answer.{answer_of};
ghost use Rattle.block.specs.Kinds.{own_agrees, file_kind, list_kind};
ghost use Rattle.block.specs.Calls.{file_answer, read_answer, words_read, write_answer, file_written};

use crate::Kind;
use crate::inner::kinds;
use crate::inner::size::{self, Size};
use payload::inner::place;
use seals::inner::{reading, sealing};
use tables::{Answer, sized};

// 14 to 18, then 1 if the file's own N or K differs.
pub fn file_answer(kind: Kind, size: Size, file: &[u8]) -> Answer
    ensures { answer_of result ≡ file_answer kind size.links size.steps file.now }
{
    let m = kinds::length_of(kind, size);
    reading::payload_answer(kinds::number_of(kind), m, file)?;
    sized(kinds::own_agrees(kind, size.links, size.steps, place::word_of(file, 0)))
}

// All that a reader refuses, with `room` words lent.
fn read_answer(kind: Kind, n: u32, k: u32, file: &[u8], room: usize) -> Answer
    ensures { answer_of result ≡ read_answer kind n k file.now room }
{
    let told = size::told(n, k)?;
    sized(room == kinds::length_of(kind, told))?;
    file_answer(kind, told, file)
}

// A file's words, or a refusal that leaves the list as lent.
pub fn read_list(kind: Kind, n: u32, k: u32, file: &[u8], words: &mut [u32]) -> Answer
    ensures answered { answer_of result ≡ read_answer kind n k file.now (length words.old) }
    ensures lent { words.new ≡ words_read kind n k file.now words.old }
{
    read_answer(kind, n, k, file, words.len())?;
    place::unpack(file, 0, words);
    Ok(())
}

// Whether a list of words has its kind's length and its own N or K as told.
fn list_fits(kind: Kind, size: Size, words: &[u32], m: usize) -> bool
    requires { 1 ≤ m }
    ensures { result ≡ (eqb (length words.now) m && own_agrees kind size.links size.steps (get_or words.now 0 0)) }
{
    words.len() == m && kinds::own_agrees(kind, size.links, size.steps, words[0])
}

// All that a writer refuses, with `room` bytes lent.
fn write_answer(kind: Kind, n: u32, k: u32, words: &[u32], room: usize) -> Answer
    ensures { answer_of result ≡ write_answer kind n k words.now room }
{
    let told = size::told(n, k)?;
    let m = kinds::length_of(kind, told);
    sized(room == reading::blocks_for(m) * 512)?;
    sized(list_fits(kind, told, words, m))
}

// A list's file, or a refusal that leaves the file as lent.
pub fn write_list(kind: Kind, n: u32, k: u32, words: &[u32], file: &mut [u8]) -> Answer
    ensures answered { answer_of result ≡ write_answer kind n k words.now (length file.old) }
    ensures lent { file.new ≡ file_written kind n k words.now file.old }
{
    write_answer(kind, n, k, words, file.len())?;
    sealing::write(kinds::number_of(kind), words, file);
    Ok(())
}

// A file's words, the file choosing its kind, where `kind` is the oldest of its place.
pub fn read_chosen(kind: Kind, n: u32, k: u32, file: &[u8], words: &mut [u32]) -> Answer
    ensures answered { answer_of result ≡ read_answer (file_kind kind file.now) n k file.now (length words.old) }
    ensures lent { words.new ≡ words_read (file_kind kind file.now) n k file.now words.old }
{
    read_list(kinds::file_kind(kind, file), n, k, file, words)
}

// A list's file, the list's length choosing its kind, where `kind` is the oldest of its place. N and K are tested first, since a length from
// bad ones need not fit 64 bits.
pub fn write_chosen(kind: Kind, n: u32, k: u32, words: &[u32], file: &mut [u8]) -> Answer
    ensures answered { answer_of result ≡ write_answer (list_kind kind n k (length words.now)) n k words.now (length file.old) }
    ensures lent { file.new ≡ file_written (list_kind kind n k (length words.now)) n k words.now file.old }
{
    let told = size::told(n, k)?;
    write_list(kinds::list_kind(kind, told, words.len()), n, k, words, file)
}
