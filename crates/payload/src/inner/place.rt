// The payload's words, read and put at any place of a file that stays where it is.
ghost use Rattle.std.specs.Prelude.{◌≡◌, ◌+◌, ◌*◌, ◌%◌, ◌≤◌, length};
ghost use Rattle.tables.specs.Tabulate.{tabulate};
ghost use Rattle.payload.specs.Word.{Words, word_at};
ghost use Rattle.payload.specs.File.{blocks_for, payload_word, payload_part, put_payload};

use crate::inner::words;

// How many payload words from word j on stand side by side in their block, and no more than `left`.
fn run_of(j: usize, left: usize) -> usize
    requires { 1 ≤ left }
    ensures { (1 ≤ result) × (result ≤ left) × (j % 125 + result ≤ 125) }
{
    left.min(125 - j % 125)
}

// Payload word j of a file.
pub fn word_of(file: &[u8], j: usize) -> u32
    requires { blocks_for (j + 1) * 512 ≤ length file.now }
    ensures { result ≡ payload_word file.now j }
{
    words::word_at(file, j / 125 * 128 + (2 + j % 125))
}

// The words of a file from its word `first` on, as many as the lent list takes.
fn copy_run(file: &[u8], first: usize, words: &mut [u32])
    requires { (first + length words.old) * 4 ≤ length file.now }
    ensures { words.new ≡ tabulate (length words.old) (λ q. word_at file.now (first + q)) }
{
    for q in 0..words.len() {
        words[q] = words::word_at(file, first + q);
    }
}

// The payload's words from word `from` on, as many as the lent list takes: block by block. A turn takes a run of words, of whatever length its
// block leaves, so the loop counts words and not turns.
pub fn unpack(file: &[u8], from: usize, words: &mut [u32])
    requires { blocks_for (from + length words.old) * 512 ≤ length file.now }
    ensures { words.new ≡ payload_part from (length words.old) file.now }
{
    let mut i = 0;
    while i < words.len() {
        let j = from + i;
        let end = i + run_of(j, words.len() - i);
        let first = j / 125 * 128 + (2 + j % 125);
        copy_run(file, first, &mut words[i..end]);
        i = end;
    }
}

// Words put as payload words j and on, side by side in one block.
fn put_run(file: &mut [u8], j: usize, words: &[u32])
    requires { (j % 125 + length words.now ≤ 125) × (blocks_for (j + length words.now) * 512 ≤ length file.old) }
    ensures { file.new ≡ put_payload file.old j words.now }
{
    let first = j / 125 * 128 + (2 + j % 125);
    for (q, word) in words.iter().enumerate() {
        words::put_word(file, first + q, *word);
    }
}

// Words put as payload words `from` and on, block by block, a run at a time as `unpack` does. Each of them fits 32 bits, and a caller may rely
// on that.
pub fn put(file: &mut [u8], from: usize, words: &[u32])
    requires { blocks_for (from + length words.now) * 512 ≤ length file.old }
    ensures { (file.new ≡ put_payload file.old from words.now) × Words words.now }
{
    let mut i = 0;
    while i < words.len() {
        let end = i + run_of(from + i, words.len() - i);
        put_run(file, from + i, &words[i..end]);
        i = end;
    }
}
