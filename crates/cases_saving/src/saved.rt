// The writing call, on the words that the case's file is.
use crate::apart::apart;
use crate::given::take_words;
use cases_shown::buffers::put_units;
use cases_shown::kept::{put_kept, show_output_kept};
use cases_shown::print::{end_line, put, put_count, put_next, put_word};
use cases_shown::rooms::{BLANK, TEXT, UNTOUCHED, WORDS};

// A written file read to words again: what the reading call answers, and in how many places its words are not those that
// the file was written from.
fn show_again(out: &impl Print, file: &[u8], words: &[u32]) {
    let mut room = [UNTOUCHED; WORDS];
    let worded = saving::read_words(file, &mut room);
    put_word(out, b"again ", worded.number);
    put_next(out, worded.count);
    put(out, b" differ");
    put_count(out, apart(words, &room));
    end_line(out);
}

// The file in the output of a taken call, whether the bytes after it are as they were, and its words.
fn show_file(out: &impl Print, words: &[u32], output: &[u8], length: usize) {
    let Some((file, rest)) = output.split_at_checked(length) else {
        put(out, b"output too short\n");
        return;
    };
    put(out, b"file ");
    put_units(out, file);
    put_kept(out, b" rest", rest);
    end_line(out);
    show_again(out, file, words);
}

// What the writing call answered and what it left, or whether the output is as it was.
fn show_saved(out: &impl Print, saved: saving::Saved, words: &[u32], output: &[u8]) {
    put_word(out, b"saved ", saved.number);
    put_next(out, saved.length);
    end_line(out);
    if saved.number == 0 {
        show_file(out, words, output, saved.length as usize);
    } else {
        show_output_kept(out, output);
    }
}

// The writing call in the buffer that is lent.
fn save(out: &impl Print, words: &[u32], output: &mut [u8]) {
    let saved = saving::write_file(words, output);
    show_saved(out, saved, words, output);
}

// The same of the words that a file is, lent so many bytes.
pub fn call_saved(out: &impl Print, file: &[u8], bytes: usize) {
    let mut words = [UNTOUCHED; WORDS];
    let count = take_words(file, &mut words);
    let mut output = [BLANK; TEXT];
    save(out, &words[..count], &mut output[..bytes.min(TEXT)]);
}
