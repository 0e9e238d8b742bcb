// The search for a rate at one node and step of a record: how many rates it tries, and what it finds.
#![tactic(auto)]

ghost use Rattle.std.specs.Prelude.{◌≡◌, length};
ghost use Rattle.tables.specs.Answer.{answer_of};
ghost use Rattle.search.specs.Search.{search_answer, search_left};

use tables::Answer;

pub mod inner;

// Checks a proposed record and searches for the rate of one node in one step of it: `out` takes the tries, 1 if a rate was found else 0, and the
// rate or 0.
pub fn search(
    corridor: &[u32],
    demands: &[u32],
    words: &[u32],
    step: u32,
    node: u32,
    out: &mut [u32],
) -> Answer
    ensures answered { answer_of result ≡ search_answer corridor.now demands.now words.now step node (length out.old) }
    ensures written { out.new ≡ search_left corridor.now demands.now words.now step node out.old }
{
    inner::place_answer(corridor, demands, words, step, node, out.len() == 3)?;
    let place = inner::place_of(corridor, demands, words, step, node);
    inner::put_search(settings::inner::search(place.junction, place.flows), out);
    Ok(())
}
