// Sealing: the payload's words stand in the file, and each block gets its kind, its number, its padding and its check word.
ghost use Rattle.std.specs.Prelude.{◌≡◌, ◌-◌, ◌*◌, ◌≤◌, ◌<◌, min, length, get_or};
ghost use Rattle.payload.specs.Block.{block_of};
ghost use Rattle.payload.specs.File.{blocks_for, Cleared, kept_word, payload_of, file_of};

use crate::inner::reading;
use payload::inner::{place, words};

// The padding: zeros from payload word `left` of a block on. So is the check word until it is known: `check_word` reads all words of a block,
// and what it finds must not be bytes that nobody has set.
fn clear(block: &mut [u8], left: usize)
    requires { length block.old ≡ 512 }
    ensures { Cleared block.old left block.new }
{
    let at = (2 + left.min(125)) * 4;
    block[at..].fill(0);
}

// One block, whose first `left` payload words stand.
fn seal_block(kind: u32, number: u32, left: usize, block: &mut [u8])
    requires { length block.old ≡ 512 }
    ensures { block.new ≡ block_of kind number (kept_word block.old left) }
{
    words::put_word(block, 0, kind);
    words::put_word(block, 1, number);
    clear(block, left);
    let check = reading::check_word(block, 0);
    words::put_word(block, 127, check);
}

// One block, with these words as its first payload words.
fn write_block(kind: u32, number: u32, words: &[u32], block: &mut [u8])
    requires { (length block.old ≡ 512) × (length words.now ≤ 125) }
    ensures { block.new ≡ block_of kind number (λ i. get_or words.now i 0) }
{
    place::put(block, 0, words);
    seal_block(kind, number, words.len(), block);
}

// How many of m payload words stand in block t.
fn words_in(m: usize, t: usize) -> usize
    requires { t < blocks_for m }
    ensures { result ≡ min 125 (m - t * 125) }
{
    (m - t * 125).min(125)
}

// The file of a payload. Each block is put and sealed before the next one, while its bytes are at hand.
pub fn write(kind: u32, words: &[u32], file: &mut [u8])
    requires { (length file.old ≡ blocks_for (length words.now) * 512) × (length words.now ≤ 4294967295) }
    ensures { file.new ≡ file_of kind words.now }
{
    let m = words.len();
    let blocks = reading::blocks_for(m);
    for t in 0..blocks {
        let from = t * 125;
        let to = from + words_in(m, t);
        let at = t * 512;
        let end = at + 512;
        write_block(kind, t as u32, &words[from..to], &mut file[at..end]);
    }
}

// The file of the m payload words that stand.
pub fn seal(kind: u32, m: usize, file: &mut [u8])
    requires { (length file.old ≡ blocks_for m * 512) × (m ≤ 4294967295) }
    ensures { file.new ≡ file_of kind (payload_of m file.old) }
{
    let blocks = reading::blocks_for(m);
    for t in 0..blocks {
        let at = t * 512;
        let end = at + 512;
        seal_block(kind, t as u32, m - t * 125, &mut file[at..end]);
    }
}
