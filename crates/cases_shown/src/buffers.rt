// What a call left in its output, a file, a text or an arena.
use crate::kept::put_kept;
use crate::print::{end_line, put, put_row, put_sum};
use crate::rooms::{BLANK, TEXT, Unit};
use crate::sum::sum_of;

// How many words of an output, or bytes of a file, are shown. Of those after them a sum is.
const SHOWN: usize = 60;

// Words of an output, or bytes of a file.
pub fn put_units<T: Unit>(out: &impl Print, units: &[T]) {
    let Some((shown, others)) = units.split_at_checked(SHOWN) else {
        put_row(out, units);
        return;
    };
    put_row(out, shown);
    if !others.is_empty() {
        put_sum(out, sum_of(others));
    }
}

// So many words of the output, and whether those after them are as they were.
pub fn show_output(out: &impl Print, output: &[u32], words: usize) {
    let Some((words, rest)) = output.split_at_checked(words) else {
        put(out, b"output too short\n");
        return;
    };
    put(out, b"output");
    put_units(out, words);
    put_kept(out, b" rest", rest);
    end_line(out);
}

// A text in a buffer, and whether the bytes after it are as they were.
pub fn show_text(out: &impl Print, text: &[u8], length: usize) {
    let Some((text, rest)) = text.split_at_checked(length) else {
        put(out, b"text too short\n");
        return;
    };
    put(out, text);
    put_kept(out, b"rest", rest);
    end_line(out);
}

// What a program prints for a file, in a buffer of so many bytes.
pub fn call_text<F: FnOnce(&[u8], &mut [u8]) -> usize>(
    out: &impl Print,
    file: &[u8],
    bytes: usize,
    text_of: F,
)
    requires { F.IsAlwaysCallable text_of }
{
    let mut room = [BLANK; TEXT];
    let text = &mut room[..bytes.min(TEXT)];
    let length = text_of(file, text);
    put(out, b"text\n");
    show_text(out, text, length);
}

// The first words of an arena, in a line.
pub fn show_words(out: &impl Print, arena: &[u32], words: usize) {
    let Some(words) = arena.get(..words) else {
        put(out, b"arena too short\n");
        return;
    };
    put(out, b"words");
    put_row(out, words);
    end_line(out);
}
