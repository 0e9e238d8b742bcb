// The first refusal of the words in three files that were read: 2 to 5 here, 7 to 13 in `proposal`.
ghost use Rattle.std.specs.Prelude.{◌≡◌, suc, ◌<◌, []};
ghost use Rattle.tables.specs.Answer.{answer_of};
ghost use Rattle.tables.specs.First.{first_node};
ghost use Rattle.lists.specs.Words.{road_of};
ghost use Rattle.lists.specs.Fits.{DemandsFit};
ghost use Rattle.list_scans.specs.Refusals.{ranges};
ghost use Rattle.list_scans.specs.Scans.{node_fault_at, most_row, demands_refusal};
ghost use Rattle.file_rows.specs.Words.{demands_in};

use file_rows::inner::demands::FileDemands;
use list_scans::inner::most;
use lists::inner::corridor::Corridor;
use lists::inner::demands::Demand;
use tables::Answer;
use tables::inner::first;

pub mod proposal;

// The first node of step k with refusal 5, its row unpacked out of the file; `most` bounds it.
fn demand_at(demands: FileDemands<'_>, most: &[u32], k: usize) -> Answer
    requires k_lt_steps { k < demands.steps }
    requires bounds { most.now ≡ most_row Rattle.list_scans.specs.Scans.Demand [] demands.links }
    ensures { answer_of result
        ≡ first_node (suc demands.entry.links) k
        (node_fault_at Rattle.list_scans.specs.Scans.Demand [] demands.entry.links demands.entry.steps 1
        (demands_in demands.entry.links demands.entry.steps demands.entry.bytes.now) k) }
{
    let links = demands.links;
    let mut room = [0u32; 130];
    let row = &mut room[..(links + 1) * 2];
    demands.row(k, row);
    let downstream = demands.downstream(k);
    list_scans::inner::demand_row(links, k, Demand { row, downstream }, most)
}

// The first step and node with refusal 5.
fn scan_demands(demands: FileDemands<'_>) -> Answer
    ensures { answer_of result
        ≡ demands_refusal [] demands.entry.links demands.entry.steps
        (demands_in demands.entry.links demands.entry.steps demands.entry.bytes.now) }
{
    let links = demands.links;
    let mut room = [0u32; 130];
    let most = &mut room[..(links + 1) * 2];
    most::demand_bounds(links, most);
    first(demands.steps, |k| demand_at(demands, most, k))
}

// The first refusal of 2 to 5.
pub fn ranges(corridor: Corridor<'_>, demands: FileDemands<'_>) -> Answer
    requires same_links { demands.links ≡ corridor.links }
    requires demands_fit { DemandsFit (demands_in demands.links demands.steps demands.bytes.now) demands.links demands.steps }
    ensures { answer_of result
        ≡ ranges (road_of corridor.entry.words.now (demands_in demands.entry.links demands.entry.steps demands.entry.bytes.now)) }
{
    list_scans::inner::scan_corridor(corridor)?;
    scan_demands(demands)
}
