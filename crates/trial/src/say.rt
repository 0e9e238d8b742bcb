// What the program prints: text, numbers, answers, and the words of a list.
use tables::{Answer, number_of};

pub fn text(bytes: &[u8]) {
    io::write_all(1, bytes);
}

pub fn number(n: u32) {
    io::print_decimal(1, u64::from(n));
}

pub fn comma() {
    text(b",");
}

pub fn space() {
    text(b" ");
}

pub fn line_end() {
    text(b"\n");
}

// A refusal as its number, row and node.
pub fn answer(given: Answer) {
    match given {
        Ok(()) => text(b"accepted"),
        Err(refusal) => {
            number(number_of(refusal.fault));
            space();
            number(refusal.row);
            space();
            number(refusal.node);
        }
    }
}

// The words of a list, with a comma after each row of `width` words but the last.
pub fn words(list: &[u32], width: usize) {
    for (i, word) in list.iter().enumerate() {
        if i > 0 && i.checked_rem(width) == Some(0) {
            comma();
        }
        space();
        number(*word);
    }
}
