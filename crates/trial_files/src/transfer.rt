// The readers and writers of block files, with what they say.
// Kinds 1 and 10 are both corridors, kinds 2 and 5 both demands, kinds 3 and 7 both records, with one reader and one writer each:
// the file chooses its kind, or the list by its length.
use crate::bytes;
use tables::Answer;
use trial::content::LENT_WORD;
use trial::{content, say};

// What every byte of a lent file is before a call. No right answer of these runs holds it.
pub const LENT_BYTE: u8 = 170;

// What a reader or a writer is told: a kind's number, as a case tells it, N, K, and how many words and bytes it is lent.
#[derive(Clone, Copy)]
pub struct Shape {
    pub kind: u32,
    pub links: u32,
    pub steps: u32,
    pub words: usize,
    pub bytes: usize,
}

impl Shape {
    // Five numbers in turn.
    pub fn of(five: &[u32]) -> Self {
        Shape {
            kind: content::item(five, 0),
            links: content::item(five, 1),
            steps: content::item(five, 2),
            words: content::length(five, 3),
            bytes: content::length(five, 4),
        }
    }

    fn write(self, words: &[u32], file: &mut [u8]) -> Answer {
        match self.kind {
            1 | 10 => block::write_corridor(self.links, self.steps, words, file),
            2 | 5 => block::write_demands(self.links, self.steps, words, file),
            3 | 7 => block::write_record(self.links, self.steps, words, file),
            _ => block::write_plan(self.links, self.steps, words, file),
        }
    }

    fn read(self, file: &[u8], words: &mut [u32]) -> Answer {
        match self.kind {
            1 | 10 => block::read_corridor(self.links, self.steps, file, words),
            2 | 5 => block::read_demands(self.links, self.steps, file, words),
            3 | 7 => block::read_record(self.links, self.steps, file, words),
            _ => block::read_plan(self.links, self.steps, file, words),
        }
    }

    // A file as it should be, for a reader. A case whose file is not written says so.
    pub fn put(self, words: &[u32], room: &mut [u8]) {
        if self
            .write(words, content::lent_part(room, self.bytes))
            .is_err()
        {
            say::text(b" not written,");
        }
    }

    // Says the writer's answer and whether the lent file was kept.
    pub fn written(self, words: &[u32], room: &mut [u8]) {
        let file = content::lent_part(room, self.bytes);
        let answer = self.write(words, file);
        say::text(b" write ");
        say::answer(answer);
        content::say_kept(file, LENT_BYTE);
    }

    // Says the reader's answer, whether the lent words were kept, and whether the words read are those written.
    pub fn was_read(self, room: &[u8], words: &[u32]) {
        let mut lent = [LENT_WORD; 15862];
        let back = content::lent_part(&mut lent, self.words);
        let answer = self.read(content::part(room, self.bytes), back);
        say::text(b" read ");
        say::answer(answer);
        content::say_kept(back, LENT_WORD);
        if answer.is_ok() {
            content::say_same(words, back);
        }
    }
}

// Kind, number and check word of block 0 or 1.
pub fn say_block(file: &[u8], number: u32) {
    let first = if number % 2 == 0 { 0 } else { 128 };
    say::text(b", block of kind ");
    say::number(bytes::word(file, first));
    say::text(b", number ");
    say::number(bytes::word(file, first + 1));
    say::text(b", check word ");
    say::number(bytes::word(file, first + 127));
}
