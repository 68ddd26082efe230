// The calls that are lent an arena, a scratch and an output.
use crate::cataloguing::call_widths;
use crate::fitting::call_fit;
use crate::letter::Lent;
use cases_line::given::Given;
use cases_listing::call_list;
use cases_shown::rooms::{OUTPUT, UNTOUCHED, WORDS};

// The call in the buffers that are lent.
fn call_lent(
    out: &impl Print,
    call: Lent,
    given: Given<'_>,
    arena: &mut [u32],
    scratch: &mut [u32],
    output: &mut [u32],
) {
    match call {
        Lent::List => call_list(out, given, arena, scratch, output),
        Lent::Fit => call_fit(out, given, arena, scratch, output),
        Lent::Widths => call_widths(out, given, arena, scratch, output),
    }
}

// Makes it with so many words of each buffer as the numbers say.
pub fn lend(out: &impl Print, call: Lent, given: Given<'_>) {
    let mut arena = [UNTOUCHED; WORDS];
    let mut scratch = [UNTOUCHED; WORDS];
    let mut output = [UNTOUCHED; OUTPUT];
    let numbers = given.numbers;
    call_lent(
        out,
        call,
        given,
        &mut arena[..numbers.arena.min(WORDS)],
        &mut scratch[..numbers.scratch.min(WORDS)],
        &mut output[..numbers.output.min(OUTPUT)],
    );
}
