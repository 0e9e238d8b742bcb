// What refuses a file by 14 to 18.
ghost use Rattle.std.specs.Prelude.{◌≡◌, ◌+◌, ◌-◌, ◌*◌, ◌%◌, ◌≤◌, ◌<◌, length};
ghost use Rattle.tables.specs.Answer.{answer_of, fault_number};
ghost use Rattle.tables.specs.First.{first};
ghost use Rattle.payload.specs.Word.{word_at};
ghost use Rattle.payload.specs.Block.{check_word};
ghost use Rattle.payload.specs.File.{blocks_for, word_in};
ghost use Rattle.seals.specs.Lanes.{lanes_check};
ghost use Rattle.seals.specs.Reading.{tested, block_answer, padding_answer, payload_answer};

use payload::inner::{place, words};
use tables::inner::first;
use tables::{Answer, Fault, placed, unless};

// Every fourth word of a block: the sum of those so far, modulo 2 ^ 32, and the sum of all that it has been.
#[derive(Clone, Copy)]
pub struct Lane {
    pub sum: u32,
    pub twice: u32,
}

impl Lane {
    // The lane with one word more.
    fn with(self, word: u32) -> Lane
        ensures { (result.sum ≡ (self.sum + word) % 4294967296) × (result.twice ≡ (self.twice + result.sum) % 4294967296) }
    {
        let sum = self.sum.wrapping_add(word);
        Lane {
            sum,
            twice: self.twice.wrapping_add(sum),
        }
    }
}

// The check word of four lanes of 32 words, the last of which, word 127, has no part in it.
fn lanes_check(a: Lane, b: Lane, c: Lane, d: Lane, last: u32) -> u32
    ensures { result
        ≡ lanes_check a.sum a.twice b.sum b.twice c.sum c.twice d.sum d.twice last }
{
    let plus = 257 * (a.sum as u64)
        + 259 * (b.sum as u64)
        + 261 * (c.sum as u64)
        + 263 * (d.sum as u64);
    let twice = (a.twice as u64) + (b.twice as u64) + (c.twice as u64) + (d.twice as u64);
    let minus = 8 * twice + 255 * (last as u64);
    ((plus + (1288490188800 - minus)) % 4294967296) as u32
}

// The check word of block t, from its words 0 to 126: by sums alone, since products take three times as long. The four lanes are four variables,
// so that their sums are made side by side: an array of lanes, gone through by a loop, would be a second loop and no plainer.
pub fn check_word(file: &[u8], t: usize) -> u32
    requires { t * 512 + 512 ≤ length file.now }
    ensures { result ≡ check_word (word_in file.now t) }
{
    let first = t * 128;
    let mut a = Lane { sum: 0, twice: 0 };
    let mut b = a;
    let mut c = a;
    let mut d = a;
    for q in 0..32 {
        let at = first + q * 4;
        a = a.with(words::word_at(file, at));
        b = b.with(words::word_at(file, at + 1));
        c = c.with(words::word_at(file, at + 2));
        d = d.with(words::word_at(file, at + 3));
    }
    lanes_check(a, b, c, d, words::word_at(file, first + 127))
}

// A refusal at a row, unless the test holds.
fn tested(fits: bool, fault: Fault, row: u32) -> Answer
    ensures { answer_of result ≡ tested fits (fault_number fault) row }
{
    placed(unless(fits, fault), row, 0)
}

// 15, 16, 17 of block t. The kind is a number, since a file's blocks may be of any kind, and the clauses speak of every number.
fn block_answer(kind: u32, file: &[u8], t: usize) -> Answer
    requires { (t * 512 + 512 ≤ length file.now) × (t < 4294967296) }
    ensures { answer_of result ≡ block_answer kind file.now t }
{
    let first = t * 128;
    let row = t as u32;
    let check = words::word_at(file, first + 127);
    let right = check_word(file, t);
    tested(check == right, Fault::Check, row)?;
    let named = words::word_at(file, first);
    tested(named == kind, Fault::Kind, row)?;
    let number = words::word_at(file, first + 1);
    tested(number == row, Fault::Number, row)
}

// The first block that is refused.
fn blocks_answer(kind: u32, file: &[u8], blocks: usize) -> Answer
    requires { (length file.now ≡ blocks * 512) × (blocks ≤ 4294967296) }
    ensures { answer_of result ≡ first blocks (block_answer kind file.now) }
{
    first(blocks, |t| block_answer(kind, file, t))
}

// 18 at word i after the payload's end.
fn padding_at(m: usize, file: &[u8], blocks: usize, i: usize) -> Answer
    requires { (length file.now ≡ blocks * 512) × (blocks ≡ blocks_for m) × (m ≤ 4294967295) × (i < blocks * 125 - m) }
    ensures { answer_of result ≡ padding_answer m file.now i }
{
    let word = place::word_of(file, m + i);
    tested(word == 0, Fault::Padding, (blocks - 1) as u32)
}

// 18 at the first word after the payload that is not zero.
fn padding_answer(m: usize, file: &[u8], blocks: usize) -> Answer
    requires { (length file.now ≡ blocks * 512) × (blocks ≡ blocks_for m) × (m ≤ 4294967295) }
    ensures { answer_of result ≡ first (blocks * 125 - m) (padding_answer m file.now) }
{
    first(blocks * 125 - m, |i| padding_at(m, file, blocks, i))
}

// How many blocks m words take.
pub fn blocks_for(m: usize) -> usize
    requires { m ≤ 4294967295 }
    ensures { result ≡ blocks_for m }
{
    (m + 124) / 125
}

// 14 to 18 of a file of m payload words.
pub fn payload_answer(kind: u32, m: usize, file: &[u8]) -> Answer
    requires { m ≤ 4294967295 }
    ensures { answer_of result ≡ payload_answer kind m file.now }
{
    let blocks = blocks_for(m);
    tested(file.len() == blocks * 512, Fault::Bytes, 0)?;
    blocks_answer(kind, file, blocks)?;
    padding_answer(m, file, blocks)
}
