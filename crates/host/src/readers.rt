// The reader and the writer of each kind of block file, for hosts that keep words.
ghost use Rattle.std.specs.Prelude.{◌≡◌, length};
ghost use Rattle.tables.specs.Answer.{host_number};
ghost use Rattle.block.specs.declared.Kind.TheVariants.{Corridor, Demands, Record, Plan};
ghost use Rattle.block.specs.Kinds.{file_kind, list_kind};
ghost use Rattle.block.specs.Calls.{read_answer, words_read, write_answer, file_written};

use crate::inner;

#[unsafe(no_mangle)]
pub extern "C" fn gigorchid_read_corridor(n: u32, k: u32, file: &[u8], words: &mut [u32]) -> u32
    ensures answered { result ≡ host_number (read_answer (file_kind Corridor file.now) n k file.now (length words.old)) }
    ensures lent { words.new ≡ words_read (file_kind Corridor file.now) n k file.now words.old }
{
    let answer = block::read_corridor(n, k, file, words);
    inner::number(answer)
}

#[unsafe(no_mangle)]
pub extern "C" fn gigorchid_write_corridor(n: u32, k: u32, words: &[u32], file: &mut [u8]) -> u32
    ensures answered { result ≡ host_number (write_answer (list_kind Corridor n k (length words.now)) n k words.now (length file.old)) }
    ensures lent { file.new ≡ file_written (list_kind Corridor n k (length words.now)) n k words.now file.old }
{
    let answer = block::write_corridor(n, k, words, file);
    inner::number(answer)
}

#[unsafe(no_mangle)]
pub extern "C" fn gigorchid_read_demands(n: u32, k: u32, file: &[u8], words: &mut [u32]) -> u32
    ensures answered { result ≡ host_number (read_answer (file_kind Demands file.now) n k file.now (length words.old)) }
    ensures lent { words.new ≡ words_read (file_kind Demands file.now) n k file.now words.old }
{
    let answer = block::read_demands(n, k, file, words);
    inner::number(answer)
}

#[unsafe(no_mangle)]
pub extern "C" fn gigorchid_write_demands(n: u32, k: u32, words: &[u32], file: &mut [u8]) -> u32
    ensures answered { result ≡ host_number (write_answer (list_kind Demands n k (length words.now)) n k words.now (length file.old)) }
    ensures lent { file.new ≡ file_written (list_kind Demands n k (length words.now)) n k words.now file.old }
{
    let answer = block::write_demands(n, k, words, file);
    inner::number(answer)
}

#[unsafe(no_mangle)]
pub extern "C" fn gigorchid_read_record(n: u32, k: u32, file: &[u8], words: &mut [u32]) -> u32
    ensures answered { result ≡ host_number (read_answer (file_kind Record file.now) n k file.now (length words.old)) }
    ensures lent { words.new ≡ words_read (file_kind Record file.now) n k file.now words.old }
{
    let answer = block::read_record(n, k, file, words);
    inner::number(answer)
}

#[unsafe(no_mangle)]
pub extern "C" fn gigorchid_write_record(n: u32, k: u32, words: &[u32], file: &mut [u8]) -> u32
    ensures answered { result ≡ host_number (write_answer (list_kind Record n k (length words.now)) n k words.now (length file.old)) }
    ensures lent { file.new ≡ file_written (list_kind Record n k (length words.now)) n k words.now file.old }
{
    let answer = block::write_record(n, k, words, file);
    inner::number(answer)
}

#[unsafe(no_mangle)]
pub extern "C" fn gigorchid_read_plan(n: u32, k: u32, file: &[u8], words: &mut [u32]) -> u32
    ensures answered { result ≡ host_number (read_answer Plan n k file.now (length words.old)) }
    ensures lent { words.new ≡ words_read Plan n k file.now words.old }
{
    let answer = block::read_plan(n, k, file, words);
    inner::number(answer)
}

#[unsafe(no_mangle)]
pub extern "C" fn gigorchid_write_plan(n: u32, k: u32, words: &[u32], file: &mut [u8]) -> u32
    ensures answered { result ≡ host_number (write_answer Plan n k words.now (length file.old)) }
    ensures lent { file.new ≡ file_written Plan n k words.now file.old }
{
    let answer = block::write_plan(n, k, words, file);
    inner::number(answer)
}
