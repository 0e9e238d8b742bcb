// Lines of text and what they tell: numbers after spaces, the words of a list in turn, and changes of a list by its letter, as c17=0,
// which makes word 17 of the list c 0. A proof pays for each statement and not for what the program reads, so a case costs none.
use crate::content;

// A word of a list, and what it becomes.
#[derive(Clone, Copy)]
pub struct NewWord {
    pub at: usize,
    pub to: u32,
}

// Where a byte first stands, or the length where it does not.
pub fn find(text: &[u8], byte: u8) -> usize {
    text.iter()
        .position(|found| *found == byte)
        .unwrap_or(text.len())
}

// Where a byte with another after it first stands, or the length where it does not.
pub fn find_pair(text: &[u8], pair: &[u8; 2]) -> usize {
    text.windows(2)
        .position(|found| found == pair.as_slice())
        .unwrap_or(text.len())
}

// The first line, without its line feed.
pub fn first(text: &[u8]) -> &[u8] {
    content::part(text, find(text, b'\n'))
}

// The text after a place.
pub fn after(text: &[u8], at: usize) -> &[u8] {
    content::part_from(content::part_from(text, at), 1)
}

// The first line, but for the very first, that begins with a letter.
fn named(text: &[u8], letter: u8) -> &[u8] {
    first(after(text, find_pair(text, &[b'\n', letter])))
}

// The number that a text begins with, 0 where there is none.
fn number(text: &[u8]) -> u32 {
    text.iter()
        .map_while(|byte| char::from(*byte).to_digit(10))
        .fold(
            0u32,
            |number, digit| number.wrapping_mul(10).wrapping_add(digit),
        )
}

// What a text begins to tell for the list with a letter, or by a number after a space for its next word.
pub fn told_change(told: &[u8], letter: u8, next: usize) -> Option<NewWord> {
    let (first, rest) = told.split_first()?;
    if *first != letter || !rest.first()?.is_ascii_digit() {
        return None;
    }
    let number = number(rest);
    if letter == b' ' {
        return Some(NewWord {
            at: next,
            to: number,
        });
    }
    Some(NewWord {
        at: number as usize,
        to: self::number(after(told, find(told, b'='))),
    })
}

// Makes the changes of the list with a letter. By a space the numbers told become its words; answers how many they are.
pub fn change(list: &mut [u32], letter: u8, told: &[u8]) -> usize {
    let mut next = 0;
    for at in 0..told.len() {
        if let Some(new) = told_change(&told[at..], letter, next) {
            if let Some(word) = list.get_mut(new.at) {
                *word = new.to;
            }
            next += 1;
        }
    }
    next
}

// A list becomes the numbers told, with those after a star again and again, or zeros after them. Answers how many come once.
pub fn put(list: &mut [u32], told: &[u8]) -> usize {
    let mut row = [0u32; 11];
    let star = find(told, b'*');
    let once = change(list, b' ', content::part(told, star));
    let width = change(&mut row, b' ', content::part_from(told, star));
    content::repeat(list, once, content::part(&row, width));
    once
}

// A list becomes what the line that begins with its letter tells, with its changes there. Answers how many words come once.
pub fn make(list: &mut [u32], letter: u8, section: &[u8]) -> usize {
    let line = named(section, letter);
    let once = put(list, line);
    change(list, letter, line);
    once
}
