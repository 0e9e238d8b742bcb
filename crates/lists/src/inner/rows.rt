// The rows of the word lists: how many words they have, where each begins, and a word of one.
ghost use Rattle.std.specs.Prelude.{◌≡◌, suc, ◌+◌, ◌*◌, ◌≤◌, ◌<◌, get_or, set};
ghost use Rattle.lists.specs.Words.{Width};
ghost use Rattle.lists.specs.Fits.{NodeIn};

// The word that opens a list, 0 where the list is empty.
pub fn opening(list: &[u32]) -> usize
    ensures { result ≡ get_or list.now 0 0 }
{
    list.first().copied().unwrap_or(0) as usize
}

// Word q of node i in a row that has `width` words for each node.
pub fn word(row: &[u32], width: usize, i: usize, q: usize) -> u32
    requires node_in { NodeIn width row.now i }
    requires q_lt_width { q < width }
    ensures { result ≡ get_or row.now (i * width + q) 0 }
{
    row[i * width + q]
}

// How many words `rows` rows of `width` words have.
pub fn table_length(rows: usize, width: usize) -> usize
    requires { (rows ≤ 1441) × (width ≤ 325) }
    ensures { result ≡ rows * width }
{
    rows * width
}

// Where row k of `rows` rows of `width` words starts, and that it ends within them.
pub fn row_at(k: usize, width: usize, rows: usize) -> usize
    requires { (k < rows) × (rows ≤ 1441) × (width ≤ 325) }
    ensures { (result ≡ k * width) × (result + width ≤ rows * width) × (result + width ≤ 468325) }
{
    k * width
}

// How many words a record's row has.
pub fn state_words(links: usize, width: usize) -> usize
    requires { (links ≤ 64) × Width width }
    ensures { (result ≡ suc links * width) × (result ≤ 325) }
{
    (links + 1) * width
}

// The two words of node i, stored in a row.
pub fn put_two(row: &mut [u32], i: usize, first: u32, second: u32)
    requires { NodeIn 2 row.old i }
    ensures { row.new ≡ set (set row.old (i * 2) first) (i * 2 + 1) second }
{
    let at = i * 2;
    row[at] = first;
    row[at + 1] = second;
}
