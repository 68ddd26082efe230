// The round trip: the case's file read to words, and these written to a file again.
use crate::apart::apart;
use cases_shown::print::{end_line, put, put_count, put_next, put_word};
use cases_shown::rooms::{BLANK, TEXT, UNTOUCHED, WORDS};

// What the writing call answers of words, and in how many places the file that it writes is not the one that is given.
fn put_written(out: &impl Print, file: &[u8], words: &[u32]) {
    let mut output = [BLANK; TEXT];
    let saved = saving::write_file(words, &mut output);
    put_next(out, saved.number);
    put_next(out, saved.length);
    put(out, b" differ");
    put_count(out, apart(file, &output));
}

// Both calls, in buffers with room for every face. Of a file that is refused the first call alone.
pub fn call_again(out: &impl Print, file: &[u8]) {
    let mut words = [UNTOUCHED; WORDS];
    let worded = saving::read_words(file, &mut words);
    put_word(out, b"again ", worded.number);
    put_next(out, worded.count);
    if worded.number == 0 {
        match words.get(..worded.count as usize) {
            Some(words) => put_written(out, file, words),
            None => put(out, b" too many words"),
        }
    }
    end_line(out);
}
