// The words of a file, each of four bytes, low byte first.
use trial::{content, line};

// A word of a file, 0 past its end.
pub fn word(file: &[u8], at: usize) -> u32 {
    let (words, _) = file.as_chunks();
    u32::from_le_bytes(content::item(words, at))
}

// Adds to the word that is told at the front of a text, modulo 2^32.
fn damage_word(file: &mut [u8], told: &[u8]) {
    if let Some(new) = line::told_change(told, b'a', 0) {
        let (words, _) = file.as_chunks_mut();
        if let Some(word) = words.get_mut(new.at) {
            *word = u32::from_le_bytes(*word).wrapping_add(new.to).to_le_bytes();
        }
    }
}

// Makes the additions told: a127=1 adds 1 to word 127 of the file.
pub fn damage(file: &mut [u8], told: &[u8]) {
    for at in 0..told.len() {
        damage_word(file, &told[at..]);
    }
}
