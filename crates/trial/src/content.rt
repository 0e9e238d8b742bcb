// Lists of words and of bytes: one item of them, a part of them, a row of them again and again, and what a call left in them.

use crate::say;

// What every word of a lent list is before a call. No right answer of these runs holds it.
pub const LENT_WORD: u32 = 2863311530;

// An item of a list, 0 past its end.
pub fn item<T: Copy + Default>(list: &[T], at: usize) -> T {
    list.get(at).copied().unwrap_or_default()
}

// A length that a list of lengths holds.
pub fn length(list: &[u32], at: usize) -> usize {
    item(list, at) as usize
}

// The first items of a list, or all where there are fewer.
pub fn part<T>(list: &[T], length: usize) -> &[T] {
    &list[..length.min(list.len())]
}

pub fn lent_part<T>(list: &mut [T], length: usize) -> &mut [T] {
    let end = length.min(list.len());
    &mut list[..end]
}

// The items from a place on, none where the list has no such place.
pub fn part_from<T>(list: &[T], from: usize) -> &[T] {
    &list[from.min(list.len())..]
}

// A word that a row gives a place of a list, from the place `from` on again and again. In the row of a node, of kind 1 or of kind 10,
// the first word, its identifier, is its place, as no other's is.
fn repeated(row: &[u32], from: usize, place: usize) -> u32 {
    let at = place
        .saturating_sub(from)
        .checked_rem(row.len())
        .unwrap_or(0);
    if at == 0 && (row.len() == 9 || row.len() == 11) {
        return u32::try_from(place).unwrap_or(u32::MAX);
    }
    item(row, at)
}

// The list from a place on becomes the row, again and again.
pub fn repeat(list: &mut [u32], from: usize, row: &[u32]) {
    for place in from..list.len() {
        list[place] = repeated(row, from, place);
    }
}

// Says whether a lent list is as it was, each item `lent`, or wholly filled.
pub fn say_kept<T: Copy + PartialEq>(list: &[T], lent: T) {
    if list.iter().all(|item| *item == lent) {
        say::text(b" kept");
    } else if list.contains(&lent) {
        say::text(b" filled in part");
    } else {
        say::text(b" filled");
    }
}

// Says whether two lists have the same words.
pub fn say_same(a: &[u32], b: &[u32]) {
    if a == b {
        say::text(b", the same words");
    } else {
        say::text(b", other words");
    }
}
