// The fit call.
use cases_line::given::{Given, Numbers};
use cases_shown::buffers::show_output;
use cases_shown::kept::{show_all_kept, show_output_kept};
use cases_shown::list::show_list;
use cases_shown::print::{end_line, put, put_next, put_word};

// The number and the fields of an answer.
fn put_answer(out: &impl Print, fitted: fit::Fitted) {
    put_word(out, b"fit ", fitted.number);
    put_next(out, fitted.height);
    put_next(out, fitted.width);
    put_next(out, fitted.area);
    put_next(out, fitted.count);
    end_line(out);
}

// The output of a taken call: five words for each gauge.
fn show_layout(out: &impl Print, file: &[u8], output: &[u32]) {
    let gauges = facefile::read(file).gauges;
    if gauges > 64 {
        put(out, b"too many gauges\n");
        return;
    }
    show_output(out, output, 5 * gauges);
}

// What the fit call answered and what it left, or whether the buffers are as they were.
fn show_fitted(
    out: &impl Print,
    fitted: fit::Fitted,
    file: &[u8],
    arena: &[u32],
    scratch: &[u32],
    output: &[u32],
) {
    put_answer(out, fitted);
    match fitted.number {
        0 => {
            show_layout(out, file, output);
            show_list(out, arena);
        }
        19 => {
            show_output_kept(out, output);
            show_list(out, arena);
        }
        _ => show_all_kept(out, arena, scratch, output),
    }
}

// The fit call in the buffers that are lent.
pub fn call_fit(
    out: &impl Print,
    given: Given<'_>,
    arena: &mut [u32],
    scratch: &mut [u32],
    output: &mut [u32],
) {
    let Numbers {
        rib,
        height,
        width,
        ..
    } = given.numbers;
    let file = given.file;
    let fitted = fit::fit(
        file,
        given.levels,
        rib,
        height,
        width,
        arena,
        scratch,
        output,
    );
    show_fitted(out, fitted, file, arena, scratch, output);
}
