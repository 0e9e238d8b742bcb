// What bounds the words of a row: a row that no word of passes its bound has no fault, and need not be looked at node by node.
ghost use Rattle.std.specs.Prelude.{◌≡◌, true, ℕ, List, ◌≤◌, ◌<◌, [], length, get_or};
ghost use Rattle.lists.specs.Fits.{RowFits};
ghost use Rattle.list_scans.specs.Scans.{NodeTest, Demand, Plan, MostAre, most_row};

use lists::inner::corridor::Corridor;
use lists::inner::rows;

// Whether no word of a row is above the word beside it. All are looked at, without a branch, so that several are compared at once. Nothing is
// said of a row of which one is.
pub fn row_within(row: &[u32], most: &[u32]) -> bool
    requires { length row.now ≡ length most.now }
    ensures { result ≡ true → (j : ℕ) → j < length row.now → get_or row.now j 0 ≤ get_or most.now j 0 }
{
    let mut within = true;
    for (word, bound) in row.iter().zip(most) {
        within &= word <= bound;
    }
    within
}

// What bounds the two words of a node.
#[derive(Clone, Copy)]
pub struct Most {
    pub first: u32,
    pub second: u32,
}

// What bounds the demands of node i.
pub fn demand_most(links: usize, i: usize) -> Most
    ensures { MostAre Demand [] links i result.first result.second }
{
    if i == links {
        Most {
            first: 0,
            second: 0,
        }
    } else if i == 0 {
        Most {
            first: 65536,
            second: 0,
        }
    } else {
        Most {
            first: 65536,
            second: 65536,
        }
    }
}

// What bounds the words of node i in a plan.
pub fn plan_most(corridor: Corridor<'_>, i: usize) -> Most
    requires { i ≤ corridor.links }
    ensures { MostAre Plan corridor.entry.words.now corridor.entry.links i result.first result.second }
{
    Most {
        first: corridor.ramp(i).capacity.0,
        second: corridor.link(i).full_speed.0,
    }
}

// The row that bounds the rows which a test reads, where `bound` tells what bounds the words of a node.
pub fn most_row<F: Fn(usize) -> Most>(links: usize, bound: F, most: &mut [u32])
    requires small { (links ≤ 64) × RowFits 2 most.old links }
    requires callable { (i : ℕ) → i ≤ links → F.pre bound i }
    ensures { (test : NodeTest) (corridor : List ℕ)
        → ((i : ℕ) (r : _) → i ≤ links → F.post bound i r → MostAre test corridor links i r.first r.second)
        → most.new ≡ most_row test corridor links }
{
    for i in 0..links + 1 {
        let bounds = bound(i);
        rows::put_two(most, i, bounds.first, bounds.second);
    }
}

// The row that bounds the rows of the demands.
pub fn demand_bounds(links: usize, most: &mut [u32])
    requires { (links ≤ 64) × RowFits 2 most.old links }
    ensures { most.new ≡ most_row Demand [] links }
{
    most_row(links, |i| demand_most(links, i), most);
}

// The row that bounds the rows of a plan.
pub fn plan_bounds(corridor: Corridor<'_>, most: &mut [u32])
    requires { RowFits 2 most.old corridor.links }
    ensures { most.new ≡ most_row Plan corridor.entry.words.now corridor.entry.links }
{
    most_row(corridor.links, |i| plan_most(corridor, i), most);
}
