// Standard input read into a lent room. A read that fails is told apart from the end of the input.
ghost use Rattle.std.specs.Prelude.{◌≡◌, length};
ghost use Rattle.normal.specs.Fits.{received, Within};

use std::io::{Read, Stdin};

// What the C library's answer to a read into a buffer says, as `received` defines it: so many bytes were put at its start, none at the input's end; or the read
// failed, so that nothing is known of the rest.
fn said(answer: isize, buffer: &[u8]) -> Option<usize>
    ensures { (result ≡ received answer (length buffer.now)) × Within result buffer.now }
{
    if answer < 0 {
        return None;
    }
    Some(io::count(answer, buffer))
}

// What a read of standard input into a buffer answers, as the C library says it: below zero where it failed.
fn answer_of(input: &mut Stdin, buffer: &mut [u8]) -> isize {
    match input.read(buffer) {
        Ok(count) => count as isize,
        Err(_) => -1,
    }
}

// Reads until the room is full, the input ends or a read fails: on by as many bytes as a read gave, which no `for` counts.
pub fn receive(input: &mut Stdin, room: &mut [u8]) -> Option<usize>
    ensures { Within result room.new }
{
    let mut done = 0;
    while done < room.len() {
        let answer = answer_of(input, &mut room[done..]);
        let more = said(answer, &room[done..])?;
        if more == 0 {
            break;
        }
        done += more;
    }
    Some(done)
}
