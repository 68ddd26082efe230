// What is not right of a list from its low end. Of a right list nothing is shown.
use crate::print::{put, put_next, put_word};
use crate::record::{BACK, FORWARD, PLACES, word};

// The back word of a record, where it is not the record before it.
fn put_other_back(out: &impl Print, arena: &[u32], record: u32, before: u32) {
    let back = word(arena, record, BACK);
    if back != before {
        put_word(out, b" but back of ", record);
        put_word(out, b" is ", back);
    }
}

// The same of each record that the walk meets, and at its end of the head, whose back word is the last one. No reading call
// is asked. Answers the place after the last one.
pub fn put_other_backs(out: &impl Print, arena: &[u32]) -> u32 {
    let mut record = word(arena, 0, FORWARD);
    let mut before = 0;
    for place in 1..=PLACES {
        put_other_back(out, arena, record, before);
        if record == 0 {
            return place;
        }
        before = record;
        record = word(arena, record, FORWARD);
    }
    put(out, b" but no end");
    PLACES + 1
}

// What the reading call gives at a place from the low end, where that is not what it gave from the top.
pub fn put_other_low(out: &impl Print, arena: &[u32], place: u32, top: maxplus::Reading) {
    let low = maxplus::read_low(arena, place);
    if low != top {
        put_word(out, b" but low ", low.number);
        put_next(out, low.m);
        put_next(out, low.p);
    }
}
