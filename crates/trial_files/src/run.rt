// Runs a case on block files. Its words are those of the line of its section that a letter names. After a star it tells
// kind, N, K, words and bytes for the writer, then the same five for the reader, or none where they are alike.
use crate::bytes;
use crate::transfer::{self, LENT_BYTE, Shape};
use trial::{content, line, say};

// The letter after the first space.
fn name(told: &[u8]) -> u8 {
    content::item(line::after(told, line::find(told, b' ')), 0)
}

// The greatest lengths that a frame holds: words, file and the words read back each in a function of its own.
pub fn case(section: &[u8], told: &[u8]) {
    let mut numbers = [0u32; 10];
    let mut room = [0u32; 15862];
    line::put(&mut numbers, told);
    let words = content::lent_part(&mut room, content::length(&numbers, 3));
    line::make(words, name(told), section);
    line::change(words, b'w', told);
    with_file(told, &numbers, words);
}

fn with_file(told: &[u8], numbers: &[u32], words: &[u32]) {
    let mut room = [LENT_BYTE; 65024];
    call(
        told,
        Shape::of(content::part(numbers, 5)),
        Shape::of(content::part_from(numbers, 5)),
        words,
        &mut room,
    );
}

// Write and read say one answer, both says both, then reads once more, and header says a block by its number, the sixth told.
fn call(told: &[u8], writer: Shape, reader: Shape, words: &[u32], room: &mut [u8]) {
    match content::item(told, 0) {
        b'w' => writer.written(words, room),
        b'r' => {
            writer.put(words, room);
            bytes::damage(room, told);
            reader.was_read(room, words);
        }
        b't' => {
            both_ways(writer, words, room);
            bytes::damage(room, told);
            say::text(b", then");
            reader.was_read(room, words);
        }
        b'h' => {
            both_ways(writer, words, room);
            transfer::say_block(room, reader.kind);
        }
        _ => both_ways(writer, words, room),
    }
}

fn both_ways(shape: Shape, words: &[u32], room: &mut [u8]) {
    shape.written(words, room);
    say::comma();
    shape.was_read(room, words);
}
