// Reads cases from standard input, runs each through the public calls and prints its answer. A line with a colon and a space is a case:
// what is said, then what is told. Other lines are printed as they are; a number sign begins a section, and its first lines tell its lists.
// The text is read in parts, so that only each section alone has to fit the room that it is read into.
// The greatest files of all, of 64 links and 1,440 steps, are too long for a local array here: the Rust tests run those.
#![tactic(auto)]

ghost use Rattle.std.specs.Prelude.{◌≤◌, length};

use trial::{content, line, say};

// The file that is standard input.
const STDIN_FILENO: i32 = 0;

// Makes the calls that a case tells, on files or on lists.
fn call(section: &[u8], told: &[u8]) {
    match content::item(told, 0) {
        b'w' | b'r' | b'b' | b't' | b'h' => trial_files::run::case(section, told),
        _ => trial_lists::run::case(section, told),
    }
}

// Prints what a line says and, where it is a case, what its calls answer.
fn run(section: &[u8], of: &[u8]) {
    let colon = line::find_pair(of, b": ");
    say::text(content::part(of, colon));
    if colon < of.len() {
        say::text(b":");
        call(section, content::part_from(of, colon + 2));
    }
    say::line_end();
}

// Whether a line begins at a place.
fn begins(text: &[u8], at: usize) -> bool {
    at == 0 || content::item(text, at - 1) == b'\n'
}

// Whether a section begins at a place, with a line that begins with a number sign.
fn begins_section(text: &[u8], at: usize) -> bool {
    begins(text, at) && content::item(text, at) == b'#'
}

// Runs every line of a text, each with the section that it is of.
fn all(text: &[u8]) {
    let mut section = text;
    for at in 0..text.len() {
        let rest = &text[at..];
        if begins_section(text, at) {
            section = rest;
        }
        if begins(text, at) {
            run(section, line::first(rest));
        }
    }
}

// Where the last section of a text begins, or the text where none does.
fn last_section(text: &[u8]) -> usize
    ensures { result ≤ length text.now }
{
    (0..text.len())
        .rev()
        .find(|at| begins_section(text, *at))
        .unwrap_or(0)
}

// Reads on behind the bytes that the room holds. Answers how many it holds then.
fn fill(room: &mut [u8], held: usize) -> usize {
    let start = held.min(room.len());
    start + io::read_full(STDIN_FILENO, &mut room[start..])
}

// Runs the whole sections of a full room and moves what is left to its front, the last section, whose end may still have to be read.
// Answers how many bytes that is: all where the room holds no other section.
fn run_whole(room: &mut [u8]) -> usize {
    let section = last_section(room);
    all(content::part(room, section));
    room.copy_within(section.., 0);
    room.len() - section
}

// Runs what is read, part by part. A proved loop has to end, and nothing says that the input does, so this one counts its turns,
// up to a number that no run uses up.
fn parts(room: &mut [u8]) {
    let mut held = 0;
    for _ in 0..u64::MAX {
        let filled = fill(room, held);
        if filled < room.len() {
            all(content::part(room, filled));
            return;
        }
        held = run_whole(room);
        if held == room.len() {
            say::text(b"too many cases for the room that they are read into\n");
            return;
        }
    }
}

fn main() {
    let mut room = io::large_buffer();
    parts(&mut room);
}
