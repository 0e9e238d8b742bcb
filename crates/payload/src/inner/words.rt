// Words of 32 bits in bytes, low byte first.
ghost use Rattle.std.specs.Prelude.{◌≡◌, ◌+◌, ◌*◌, ◌≤◌, length};
ghost use Rattle.payload.specs.Word.{word_at, put_word};

// Word j of a file.
pub fn word_at(file: &[u8], j: usize) -> u32
    requires { j * 4 + 4 ≤ length file.now }
    ensures { result ≡ word_at file.now j }
{
    let at = j * 4;
    u32::from_le_bytes([file[at], file[at + 1], file[at + 2], file[at + 3]])
}

// A word put as word j of a file.
pub fn put_word(file: &mut [u8], j: usize, word: u32)
    requires { j * 4 + 4 ≤ length file.old }
    ensures { file.new ≡ put_word file.old j word }
{
    let at = j * 4;
    file[at..at + 4].copy_from_slice(&word.to_le_bytes());
}
