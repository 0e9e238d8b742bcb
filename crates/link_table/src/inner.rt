// The table of links and ramps: filled from a corridor of either kind, and read node by node.
ghost use Rattle.std.specs.Prelude.{◌≡◌, ◌≤◌};
ghost use Rattle.road.specs.Step.{receiving};
ghost use Rattle.road.specs.Values.{link_of, ramp_of};
ghost use Rattle.lists.specs.Rows.{state_in};
ghost use Rattle.lists.specs.Fits.{RowFits, NodeIn};
ghost use Rattle.link_table.specs.Table.{link_in, ramp_in, put_link, table_of};

use lists::inner::corridor::Corridor;
use lists::inner::rows;
use road::{Link, Ramp, Speed, Units};

// A link and a ramp, stored as the words of node i.
fn put_link(table: &mut [u32], i: usize, link: Link, ramp: Ramp)
    requires { NodeIn 8 table.old i }
    ensures { table.new ≡ put_link table.old i (link_of link) (ramp_of ramp) }
{
    let at = i * 8;
    table[at] = link.capacity.0;
    table[at + 1] = link.full_speed.0;
    table[at + 2] = link.wave_speed.0;
    table[at + 3] = link.jam.0;
    table[at + 4] = link.dropped_capacity.0;
    table[at + 5] = link.drop_density.0;
    table[at + 6] = ramp.capacity.0;
    table[at + 7] = ramp.queue_limit.0;
}

// The table of a corridor.
pub fn fill(corridor: Corridor<'_>, table: &mut [u32])
    requires { RowFits 8 table.old corridor.links }
    ensures { table.new ≡ table_of corridor.entry.words.now corridor.entry.links }
{
    for i in 0..corridor.nodes() {
        put_link(table, i, corridor.link(i), corridor.ramp(i));
    }
}

// Link i.
pub fn link_at(table: &[u32], i: usize) -> Link
    requires { NodeIn 8 table.now i }
    ensures { link_of result ≡ link_in table.now i }
{
    Link {
        capacity: Units(rows::word(table, 8, i, 0)),
        full_speed: Speed(rows::word(table, 8, i, 1)),
        wave_speed: Speed(rows::word(table, 8, i, 2)),
        jam: Units(rows::word(table, 8, i, 3)),
        dropped_capacity: Units(rows::word(table, 8, i, 4)),
        drop_density: Units(rows::word(table, 8, i, 5)),
    }
}

// Ramp i.
pub fn ramp_at(table: &[u32], i: usize) -> Ramp
    requires { NodeIn 8 table.now i }
    ensures { ramp_of result ≡ ramp_in table.now i }
{
    Ramp {
        capacity: Units(rows::word(table, 8, i, 6)),
        queue_limit: Units(rows::word(table, 8, i, 7)),
    }
}

// The receiving of link i, in the state that a row gives, whose nodes have `width` words, the first of them n.
pub fn receiving_at(table: &[u32], row: &[u32], width: usize, i: usize) -> Units
    requires node_in { NodeIn 8 table.now i × NodeIn width row.now i × (1 ≤ width) }
    requires jam_kept { (state_in width row.now i).vehicles ≤ (link_in table.now i).jam }
    ensures { result.0 ≡ receiving (link_in table.now i) (state_in width row.now i).vehicles }
{
    let link = link_at(table, i);
    let vehicles = Units(rows::word(row, width, i, 0));
    road::inner::receiving(link, vehicles)
}
