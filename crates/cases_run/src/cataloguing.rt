// The catalogue call.
use cases_line::given::Given;
use cases_shown::buffers::show_output;
use cases_shown::kept::show_all_kept;
use cases_shown::list::show_list;
use cases_shown::print::{end_line, put_next, put_word};
use cases_shown::rooms::WORDS;

// What the catalogue call answered and what it left for so many heights, or whether the buffers are as they were.
fn show_widths(
    out: &impl Print,
    catalogued: catalogue::Catalogued,
    heights: usize,
    arena: &[u32],
    scratch: &[u32],
    output: &[u32],
) {
    put_word(out, b"widths ", catalogued.number);
    put_next(out, catalogued.looks);
    end_line(out);
    if catalogued.number == 0 {
        show_output(out, output, heights);
        show_list(out, arena);
    } else {
        show_all_kept(out, arena, scratch, output);
    }
}

// The catalogue call on heights, in the buffers that are lent.
fn call_heights(
    out: &impl Print,
    given: Given<'_>,
    heights: &[u32],
    arena: &mut [u32],
    scratch: &mut [u32],
    output: &mut [u32],
) {
    let rib = given.numbers.rib;
    let file = given.file;
    let catalogued = catalogue::widths(file, given.levels, rib, heights, arena, scratch, output);
    show_widths(out, catalogued, heights.len(), arena, scratch, output);
}

// The same on as many heights as the numbers say, some of which are replaced.
pub fn call_widths(
    out: &impl Print,
    given: Given<'_>,
    arena: &mut [u32],
    scratch: &mut [u32],
    output: &mut [u32],
) {
    let mut heights = [given.numbers.width; WORDS];
    given.replaced.replace_words(&mut heights);
    let count = (given.numbers.height as usize).min(WORDS);
    call_heights(out, given, &heights[..count], arena, scratch, output);
}
