// The file of a record.
ghost use Rattle.std.specs.Prelude.{◌≡◌, suc, ◌+◌, ◌*◌, ◌≤◌, length};
ghost use Rattle.lists.specs.Words.{Width, record_length, trace_length};
ghost use Rattle.payload.specs.File.{payload_word, payload_part};
ghost use Rattle.file_rows.specs.Rows.{Holds, state_row_in};

use lists::inner::rows;
use payload::inner::place;

// A record of N links over K steps, with so many words to a node, where it stands in its file.
#[derive(Clone, Copy)]
pub struct FileRecord<'a> {
    pub bytes: &'a [u8],
    pub links: usize,
    pub steps: usize,
    pub width: usize,
    pub ghost few: { links ≤ 64 },
    pub ghost short: { steps ≤ 1440 },
    pub ghost wide: { Width width },
    pub ghost holds: { Holds (record_length width links steps) bytes.now },
}

impl<'a> FileRecord<'a> {
    // Where state k starts, and that it ends before the words of the cost.
    fn start(self, k: usize) -> usize
        requires { k ≤ self.steps }
        ensures at { result ≡ k * (suc self.entry.links * self.entry.width) }
        ensures within { result + suc self.entry.links * self.entry.width ≤ trace_length self.entry.width self.entry.links self.entry.steps }
    {
        rows::row_at(k, rows::state_words(self.links, self.width), self.steps + 1)
    }

    // State k, and the flows of step k.
    pub fn row(self, k: usize, room: &mut [u32])
        requires { (k ≤ self.steps) × (length room.old ≡ suc self.links * self.width) }
        ensures { room.new ≡ state_row_in self.entry.width self.entry.links self.entry.bytes.now k }
    {
        place::unpack(self.bytes, self.start(k), room);
    }

    // The words of node i in state k.
    pub fn node(self, k: usize, i: usize, room: &mut [u32])
        requires { (k ≤ self.steps) × (i ≤ self.links) × (length room.old ≡ self.width) }
        ensures { room.new
            ≡ payload_part (k * (suc self.entry.links * self.entry.width) + i * self.entry.width) self.entry.width self.entry.bytes.now }
    {
        let here = rows::row_at(i, self.width, self.links + 1);
        place::unpack(self.bytes, self.start(k) + here, room);
    }

    // The low and the high word of the cost, after all states.
    pub fn cost_words(self) -> (u32, u32)
        ensures low { result.0 ≡ payload_word self.entry.bytes.now (trace_length self.entry.width self.entry.links self.entry.steps) }
        ensures high { result.1 ≡ payload_word self.entry.bytes.now (trace_length self.entry.width self.entry.links self.entry.steps + 1) }
    {
        let wide = rows::state_words(self.links, self.width);
        let at = rows::table_length(self.steps + 1, wide);
        (
            place::word_of(self.bytes, at),
            place::word_of(self.bytes, at + 1),
        )
    }
}
