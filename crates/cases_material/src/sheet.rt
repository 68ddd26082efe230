// The sheet call.
use cases_line::given::Given;
use cases_shown::buffers::show_text;
use cases_shown::kept::{show_all_kept, show_output_kept};
use cases_shown::list::show_list;
use cases_shown::print::{end_line, put_next, put_word};
use cases_shown::rooms::{BLANK, TEXT, UNTOUCHED, WORDS};

// What the sheet call answered and what it left, or whether the buffers are as they were.
fn show_sheet(
    out: &impl Print,
    printed: materialsheet::Printed,
    arena: &[u32],
    scratch: &[u32],
    output: &[u8],
) {
    put_word(out, b"sheet ", printed.number);
    put_next(out, printed.length);
    end_line(out);
    match printed.number {
        0 => {
            show_text(out, output, printed.length as usize);
            show_list(out, arena);
        }
        19 => {
            show_output_kept(out, output);
            show_list(out, arena);
        }
        _ => show_all_kept(out, arena, scratch, output),
    }
}

// The sheet call in the buffers that are lent.
fn print(
    out: &impl Print,
    given: Given<'_>,
    arena: &mut [u32],
    scratch: &mut [u32],
    output: &mut [u8],
) {
    let numbers = given.numbers;
    let printed = materialsheet::sheet(
        given.file,
        given.levels,
        numbers.rib,
        numbers.height,
        numbers.width,
        arena,
        scratch,
        output,
    );
    show_sheet(out, printed, arena, scratch, output);
}

// The same with so many words or bytes of each buffer as the numbers say.
pub fn call_sheet(out: &impl Print, given: Given<'_>) {
    let mut arena = [UNTOUCHED; WORDS];
    let mut scratch = [UNTOUCHED; WORDS];
    let mut output = [BLANK; TEXT];
    let numbers = given.numbers;
    print(
        out,
        given,
        &mut arena[..numbers.arena.min(WORDS)],
        &mut scratch[..numbers.scratch.min(WORDS)],
        &mut output[..numbers.output.min(TEXT)],
    );
}
