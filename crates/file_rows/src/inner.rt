// The files of demands and of a record, how many words a corridor and a record have, and the rows of one step, unpacked into short lists.
ghost use Rattle.std.specs.Prelude.{◌≡◌, ◌≤◌};
ghost use Rattle.lists.specs.Words.{Width};
ghost use Rattle.file_rows.specs.Words.{corridor_count, file_width};

use block::Kind;
use block::inner::kinds;

pub mod demands;
pub mod record;

// How many words the corridor in a file has: no more than a room of 716 holds.
pub fn corridor_count(links: usize, corridor: &[u8]) -> usize
    requires { links ≤ 64 }
    ensures { (result ≡ corridor_count links corridor.now) × (result ≤ 716) }
{
    if kinds::says_later(Kind::Corridor, corridor) {
        return 1 + (links + 1) * 11;
    }
    1 + (links + 1) * 9
}

// How many words a node has in the record of a file.
pub fn record_width(recorded: &[u8]) -> usize
    ensures { (result ≡ file_width recorded.now) × Width result }
{
    if kinds::says_later(Kind::Record, recorded) {
        return 5;
    }
    4
}
