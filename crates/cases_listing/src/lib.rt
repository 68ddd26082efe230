// The list call, and the calls on the arena that it leaves, with what they give as text on standard output.
#![tactic(auto)]

use cases_line::given::Given;
use cases_shown::buffers::{show_output, show_words};
use cases_shown::kept::show_all_kept;
use cases_shown::list::{End, show_list, show_reading};
use cases_shown::print::{end_line, put_next, put_word};
use cases_shown::rooms::{OUTPUT, UNTOUCHED, WORDS};

// What the list call answered and what it left, or whether the buffers are as they were.
fn show_listed(
    out: &impl Print,
    listed: shapes::Listed,
    arena: &[u32],
    scratch: &[u32],
    output: &[u32],
) {
    put_word(out, b"list ", listed.number);
    put_next(out, listed.count);
    end_line(out);
    if listed.number == 0 {
        show_output(out, output, 2 * listed.count as usize);
        show_list(out, arena);
    } else {
        show_all_kept(out, arena, scratch, output);
    }
}

// The list call in the buffers that are lent.
pub fn call_list(
    out: &impl Print,
    given: Given<'_>,
    arena: &mut [u32],
    scratch: &mut [u32],
    output: &mut [u32],
) {
    let rib = given.numbers.rib;
    let listed = shapes::list(given.file, given.levels, rib, arena, scratch, output);
    show_listed(out, listed, arena, scratch, output);
}

// An arena that the list call leaves.
fn leave_list(given: Given<'_>, arena: &mut [u32]) {
    let mut scratch = [UNTOUCHED; WORDS];
    let mut output = [UNTOUCHED; OUTPUT];
    let rib = given.numbers.rib;
    shapes::list(
        given.file,
        given.levels,
        rib,
        arena,
        &mut scratch,
        &mut output,
    );
}

// The reading call, from an end, on an arena that the list call leaves and whose words are then
// replaced.
pub fn call_read(out: &impl Print, given: Given<'_>, end: End) {
    let numbers = given.numbers;
    let mut arena = [numbers.height; WORDS];
    leave_list(given, &mut arena);
    given.replaced.replace_words(&mut arena);
    show_reading(out, &arena, numbers.arena.min(WORDS), numbers.width, end);
}

// The first words of an arena that the list call leaves.
pub fn call_words(out: &impl Print, given: Given<'_>) {
    let mut arena = [UNTOUCHED; WORDS];
    leave_list(given, &mut arena);
    show_words(out, &arena, given.numbers.arena.min(WORDS));
}
