// The program `normal`: reads a corridor's, the demands' and a record's file from standard input and prints the record's plan, or its refusal. Its
// exit status is 0 unless a signal ends it; where reading or writing fails it says so on standard error.
#![tactic(auto)]

mod inner;

ghost use Rattle.std.specs.Prelude.{◌≡◌, length};

use inner::{print, receive};

// The file that is standard error.
const STDERR_FILENO: i32 = 2;

// Room for one byte more than is taken: of a longer input its first 65,537 bytes are refused as it is (`cut_printed` of crates/printed).
fn input_room() -> [u8; 65537]
    ensures { 65537 ≡ length result }
{
    [0; 65537]
}

// Where this cannot be written either, there is nobody left to tell.
fn say(line: &[u8]) {
    io::write_all(STDERR_FILENO, line);
}

fn main(rt: HostRuntime) {
    let mut room = input_room();
    let Some(n) = receive::receive(&mut rt.stdin(), &mut room) else {
        say(b"normal: cannot read standard input\n");
        return;
    };
    let given = print::print_answer(&room[..n]);
    if given.failed {
        say(b"normal: cannot write standard output\n");
    }
}
