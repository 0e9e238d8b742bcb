// The lines that the program prints. That an input is accepted is asked of each caller: a struct round the input would say in each clause which input
// it is of, and be no plainer.
ghost use Rattle.std.specs.Prelude.{◌≡◌, [], ◌∷◌, ◌++◌, ◌≤◌, ◌<◌, length};
ghost use Rattle.tables.specs.Answer.{Accepted};
ghost use Rattle.lists.specs.Words.{node_at, road_of, trace_of};
ghost use Rattle.convert.specs.Refusals.{judged};
ghost use Rattle.convert.specs.Convert.{setting_at};
ghost use Rattle.file_rows.specs.Words.{demands_in, record_in};
ghost use Rattle.files.specs.Fits.{Accepts};
ghost use Rattle.printed.specs.Input.{links_in, steps_in, input_answer};
ghost use Rattle.printed.specs.Fits.{stated_cost};
ghost use Rattle.printed.specs.Text.{decimal, spaced, refused_line, head_line, setting_line, files_line, plan_line};

use crate::inner::input;
use crate::inner::text::Line;
use file_scans::inner::proposal::FileProposal;
use files::inner::answers::ReadFiles;
use lists::inner::corridor::Corridor;
use lists::inner::demands::Demand;
use lists::inner::record::Row;
use settings::Setting;

// A word and three numbers.
fn numbers_line(word: &[u8], first: u64, second: u64, third: u64) -> Line
    requires { length word.now ≤ 8 }
    ensures { result ≡ word.now ++ (spaced first ++ (spaced second ++ (spaced third ++ (10 ∷ [])))) }
{
    let mut line = Line::new();
    line.put_text(word);
    line.put_spaced(first);
    line.put_spaced(second);
    line.put_spaced(third);
    line.put_text(b"\n");
    line
}

// A refusal.
#[tactic(auto, unfolding(crate::specs::Text::refused_word, crate::specs::Text::refused_line))]
pub fn refused_line(number: u32, row: u32, node: u32) -> Line
    ensures { result ≡ refused_line number row node }
{
    numbers_line(
        b"REFUSED",
        u64::from(number),
        u64::from(row),
        u64::from(node),
    )
}

// The cost that a record states in its two last words.
fn stated_cost(read: ReadFiles<'_>) -> u64
    ensures { result ≡ stated_cost read.entry.size.links read.entry.size.steps read.entry.files.recorded.now }
{
    let (low, high) = read.record().cost_words();
    u64::from(high) * 4294967296 + u64::from(low)
}

// The first line of an accepted input.
pub fn head_line(input: &[u8]) -> Line
    requires { input_answer input.now ≡ Accepted }
    ensures { result ≡ head_line input.now }
{
    let read = input::files_in(input);
    let steps = u64::from(read.size.steps);
    let nodes = u64::from(read.size.links) + 1;
    numbers_line(b"PLAN", steps, nodes, stated_cost(read))
}

// Step, identifier, rate, limit and the setting's letter.
fn fields_line(step: u64, identifier: u32, rate: u32, limit: u32, letter: u8) -> Line
    ensures { result ≡ decimal step ++ (spaced identifier ++ (spaced rate ++ (spaced limit ++ (32 ∷ letter ∷ 10 ∷ [])))) }
{
    let mut line = Line::new();
    line.put_decimal(step);
    line.put_spaced(u64::from(identifier));
    line.put_spaced(u64::from(rate));
    line.put_spaced(u64::from(limit));
    line.put_text(&[b' ', letter, b'\n']);
    line
}

// The line of node i at a step, with its setting: F where it is full, H where it is held.
fn node_line(corridor: Corridor<'_>, i: usize, step: u64, setting: Setting) -> Line
    requires { i ≤ corridor.links }
    ensures { result
        ≡ setting_line step (node_at corridor.entry.words.now i).identifier (node_at corridor.entry.words.now i).link.full_speed setting }
{
    let identifier = corridor.identifier(i);
    match setting {
        Setting::Full(rate) => {
            let full = corridor.link(i).full_speed;
            fields_line(step, identifier, rate.0, full.0, b'F')
        }
        Setting::Held(rate, limit) => fields_line(step, identifier, rate.0, limit.0, b'H'),
    }
}

// The setting of node i at step k, its rows unpacked out of the files.
fn setting_of(proposal: FileProposal<'_>, k: usize, i: usize) -> Setting
    requires judges { judged proposal.record.width
        (road_of proposal.corridor.words.now
        (demands_in proposal.corridor.links proposal.demands.steps proposal.demands.bytes.now))
        (record_in proposal.record.width proposal.corridor.links proposal.demands.steps proposal.record.bytes.now)
        ≡ Accepted }
    requires k_lt_steps { (k < proposal.demands.steps) × (i ≤ proposal.corridor.links) }
    ensures { result
        ≡ setting_at
        (road_of proposal.entry.corridor.words.now
        (demands_in proposal.entry.corridor.links proposal.entry.demands.steps proposal.entry.demands.bytes.now))
        (trace_of proposal.entry.record.width
        (road_of proposal.entry.corridor.words.now
        (demands_in proposal.entry.corridor.links proposal.entry.demands.steps proposal.entry.demands.bytes.now))
        (record_in proposal.entry.record.width proposal.entry.corridor.links proposal.entry.demands.steps proposal.entry.record.bytes.now))
        k i }
{
    let width = proposal.record.width;
    let narrow = proposal.corridor.nodes() * 2;
    let wide = proposal.corridor.nodes() * width;
    let mut demand_room = [0u32; 130];
    let row = &mut demand_room[..narrow];
    proposal.demands.row(k, row);
    let downstream = proposal.demands.downstream(k);
    let mut room = [0u32; 325];
    let words = &mut room[..wide];
    proposal.record.row(k, words);
    convert_rows::inner::plans::setting_at(
        proposal.corridor,
        Demand { row, downstream },
        Row { words, width },
        i,
    )
}

// The line of node i at step k, out of the files.
fn files_line(read: ReadFiles<'_>, k: usize, i: usize) -> Line
    requires accepts { Accepts read.size.links read.size.steps read.files.corridor.now read.files.demands.now read.files.recorded.now }
    requires k_lt_steps { (k < read.size.steps) × (i ≤ read.size.links) }
    ensures { result
        ≡ files_line read.entry.size.links read.entry.size.steps read.entry.files.corridor.now read.entry.files.demands.now
        read.entry.files.recorded.now k i }
{
    let mut room = [0u32; 716];
    let proposal = read.proposal(&mut room);
    let setting = setting_of(proposal, k, i);
    node_line(proposal.corridor, i, k as u64, setting)
}

// The line of node i at step k of an accepted input.
pub fn plan_line(input: &[u8], k: usize, i: usize) -> Line
    requires accepted { input_answer input.now ≡ Accepted }
    requires k_bound { (k < steps_in input.now) × (i ≤ links_in input.now) }
    ensures { result ≡ plan_line input.now k i }
{
    files_line(input::files_in(input), k, i)
}
