// The reading call: the case's file to words.
use cases_shown::buffers::show_output;
use cases_shown::kept::show_output_kept;
use cases_shown::print::{end_line, put_next, put_word};
use cases_shown::rooms::{UNTOUCHED, WORDS};

// What the reading call answered and what it left, or whether the output is as it was.
fn show_worded(out: &impl Print, worded: saving::Worded, output: &[u32]) {
    put_word(out, b"words ", worded.number);
    put_next(out, worded.count);
    end_line(out);
    if worded.number == 0 {
        show_output(out, output, worded.count as usize);
    } else {
        show_output_kept(out, output);
    }
}

// The reading call in the buffer that is lent.
fn read(out: &impl Print, file: &[u8], output: &mut [u32]) {
    let worded = saving::read_words(file, output);
    show_worded(out, worded, output);
}

// The same, lent so many words.
pub fn call_worded(out: &impl Print, file: &[u8], words: usize) {
    let mut output = [UNTOUCHED; WORDS];
    read(out, file, &mut output[..words.min(WORDS)]);
}
