// The list in an arena, and what the reading call gives of it.
use crate::ends::{put_other_backs, put_other_low};
use crate::print::{end_line, put, put_next, put_sum, put_word};
use crate::record::{FORWARD, LEVEL, M, PLACES, word};
use crate::sum::with_word;

// How many items of a list are shown. Of those after them a sum is.
const ITEMS: u32 = 16;

// The m that a record has, where it is not the one that was read.
fn put_other_m(out: &impl Print, m: u32, read: u32) {
    if m != read {
        put_word(out, b" but m ", m);
    }
}

// An item of a list: its record with its level, and what the reading call gives of it.
fn put_item(out: &impl Print, arena: &[u32], record: u32, reading: maxplus::Reading) {
    put_next(out, record);
    put_next(out, word(arena, record, LEVEL));
    put_next(out, reading.m);
    put_next(out, reading.p);
    put_other_m(out, word(arena, record, M), reading.m);
    put(out, b",");
}

// A sum with an item more.
fn with_item(sum: u64, arena: &[u32], record: u32, reading: maxplus::Reading) -> u64 {
    let of_record = with_word(with_word(sum, record), word(arena, record, LEVEL));
    let of_reading = with_word(with_word(of_record, reading.m), reading.p);
    with_word(of_reading, word(arena, record, M))
}

// Shows an item where it is one of the first. Else its words go to the sum, which is answered.
fn show_item(
    out: &impl Print,
    sum: u64,
    place: u32,
    arena: &[u32],
    record: u32,
    reading: maxplus::Reading,
) -> u64 {
    if place <= ITEMS {
        put_item(out, arena, record, reading);
        return sum;
    }
    with_item(sum, arena, record, reading)
}

// The line's end of a list that ends before a place: the sum of the items that are not shown, and with which numbers the
// reading call refuses place 0 and that place.
fn put_ends(out: &impl Print, arena: &[u32], sum: u64, place: u32, last: u32) {
    if place > ITEMS + 1 {
        put_sum(out, sum);
    }
    let before = maxplus::read(arena, 0);
    put_other_low(out, arena, place, before);
    put_word(out, b" ends ", before.number);
    put_next(out, last);
    end_line(out);
}

// The list in an arena, in a line, with what is not right of it from its low end.
pub fn show_list(out: &impl Print, arena: &[u32]) {
    put(out, b"list");
    let end = put_other_backs(out, arena);
    let mut record = word(arena, 0, FORWARD);
    let mut sum = 0;
    for place in 1..=PLACES {
        let reading = maxplus::read(arena, place);
        put_other_low(out, arena, end.wrapping_sub(place), reading);
        if reading.number != 0 {
            put_ends(out, arena, sum, place, reading.number);
            return;
        }
        sum = show_item(out, sum, place, arena, record, reading);
        record = word(arena, record, FORWARD);
    }
    put(out, b" no end\n");
}

// What a reading call gives, after its name.
fn put_reading(out: &impl Print, name: &[u8], reading: maxplus::Reading) {
    put_word(out, name, reading.number);
    put_next(out, reading.m);
    put_next(out, reading.p);
    end_line(out);
}

// The end of a list from which its places are counted.
#[derive(Clone, Copy)]
pub enum End {
    Top,
    Low,
}

// What the reading call gives at a place from an end.
fn read_from(out: &impl Print, arena: &[u32], place: u32, end: End) {
    match end {
        End::Top => put_reading(out, b"read ", maxplus::read(arena, place)),
        End::Low => put_reading(out, b"low ", maxplus::read_low(arena, place)),
    }
}

// The same of an arena of so many words.
pub fn show_reading(out: &impl Print, arena: &[u32], words: usize, place: u32, end: End) {
    let Some(arena) = arena.get(..words) else {
        put(out, b"arena too short\n");
        return;
    };
    read_from(out, arena, place, end);
}
