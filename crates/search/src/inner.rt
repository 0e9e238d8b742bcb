// One node in one step of a record that is accepted, and the words of a search.
ghost use Rattle.std.specs.Prelude.{◌≡◌, ◌&&◌, ◌≤◌, ◌<◌, length, ltb, leb};
ghost use Rattle.tables.specs.Answer.{Accepted, answer_of};
ghost use Rattle.lists.specs.Words.{links_of, steps_of, road_of, width_of};
ghost use Rattle.lengths.specs.Lengths.{sizes};
ghost use Rattle.convert.specs.Refusals.{judged};
ghost use Rattle.convert.specs.Rows.{Ready};
ghost use Rattle.search.specs.Search.{search_words, place_answer};
ghost use Rattle.search.specs.Places.{PlaceAt};

use convert::inner::proposal;
use lists::inner::{corridor, demands};
use road::{Flows, Junction};
use settings::Search;
use tables::{Answer, sized};

// One node in one step of a record: what rules 1 to 5 ask of it, and its flows.
#[derive(Clone, Copy)]
pub struct Place {
    pub junction: Junction,
    pub flows: Flows,
}

// Whether N, K and the lengths of two lists are right, the step is below K and the node up to N, and `fits`.
fn place_fits(corridor: &[u32], demands: &[u32], step: u32, node: u32, fits: bool) -> bool
    ensures { result ≡ (sizes corridor.now demands.now && (ltb step (steps_of demands.now) && (leb node (links_of corridor.now) && fits))) }
{
    lengths::inner::sizes(corridor, demands)
        && (step as usize) < demands::steps_of(demands)
        && (node as usize) <= corridor::links_of(corridor)
        && fits
}

// What refuses a call on one node and step of a record; `fits` says whether its lent list has the right length.
pub fn place_answer(
    corridor: &[u32],
    demands: &[u32],
    words: &[u32],
    step: u32,
    node: u32,
    fits: bool,
) -> Answer
    ensures { answer_of result ≡ place_answer corridor.now demands.now words.now step node fits }
{
    sized(place_fits(corridor, demands, step, node, fits))?;
    convert::check(corridor, demands, words)
}

// Node `node` in step `step` of a record.
pub fn place_of<'a>(
    corridor: &'a [u32],
    demands: &'a [u32],
    words: &'a [u32],
    step: u32,
    node: u32,
) -> Place
    requires ready { Ready (width_of corridor.now demands.now (length words.now)) corridor.now demands.now words.now
        (links_of corridor.now) (steps_of demands.now) }
    requires accepted { judged (width_of corridor.now demands.now (length words.now)) (road_of corridor.now demands.now) words.now ≡ Accepted }
    requires step_bound { (step < steps_of demands.now) × (node ≤ links_of corridor.now) }
    ensures { PlaceAt (width_of corridor.now demands.now (length words.now)) corridor.now demands.now words.now step node result }
{
    let proposal = proposal::proposed(corridor, demands, words);
    let step = step as usize;
    let node = node as usize;
    let row = proposal.record.row(step);
    Place {
        junction: proposal
            .corridor
            .junction(proposal.demands.step(step), row, node),
        flows: row.flows(node),
    }
}

// The words of a search.
#[tactic(auto, unfolding(crate::specs::Search::search_words))]
pub fn put_search(done: Search, out: &mut [u32])
    requires { length out.old ≡ 3 }
    ensures { out.new ≡ search_words done }
{
    match done.found {
        Some(rate) => out.copy_from_slice(&[done.tries, 1, rate.0]),
        None => out.copy_from_slice(&[done.tries, 0, 0]),
    }
}
