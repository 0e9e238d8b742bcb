// The file of the demands.
ghost use Rattle.std.specs.Prelude.{◌≡◌, ◌+◌, ◌*◌, ◌≤◌, ◌<◌, length};
ghost use Rattle.file_rows.specs.Words.{demands_count};
ghost use Rattle.file_rows.specs.Rows.{Holds, demand_row_in, downstream_in};

use block::Kind;
use block::inner::kinds;
use lists::inner::rows;
use payload::inner::place;
use road::Units;

// The demands of N links over K steps, where they stand in their file.
#[derive(Clone, Copy)]
pub struct FileDemands<'a> {
    pub bytes: &'a [u8],
    pub links: usize,
    pub steps: usize,
    pub ghost few: { links ≤ 64 },
    pub ghost short: { steps ≤ 1440 },
    pub ghost holds: { Holds (demands_count links steps bytes.now) bytes.now },
}

impl<'a> FileDemands<'a> {
    // The demands of step k.
    pub fn row(self, k: usize, room: &mut [u32])
        requires { (k < self.steps) × (length room.old ≡ (self.links + 1) * 2) }
        ensures { room.new ≡ demand_row_in self.entry.links self.entry.bytes.now k }
    {
        let at = rows::row_at(k, (self.links + 1) * 2, self.steps);
        place::unpack(self.bytes, 1 + at, room);
    }

    // The flow that may leave link N in step k: 65,536 where the demands' kind has no word for it.
    pub fn downstream(self, k: usize) -> Units
        requires { k < self.steps }
        ensures { result.0 ≡ downstream_in self.entry.links self.entry.steps self.entry.bytes.now k }
    {
        if kinds::says_later(Kind::Demands, self.bytes) {
            let rows = rows::table_length(self.steps, (self.links + 1) * 2);
            return Units(place::word_of(self.bytes, 1 + rows + k));
        }
        Units(65536)
    }
}
