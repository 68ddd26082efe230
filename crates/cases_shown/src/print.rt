// Numbers and bytes as text on an output. A write that fails is left out, and so is what it had to show.
use crate::rooms::Unit;

pub fn put(out: &impl Print, text: &[u8]) {
    let _ = out.write_all(text);
}

fn put_number(out: &impl Print, number: u64) {
    let _ = out.print(number);
}

// A word in decimal, after a separator.
pub fn put_word(out: &impl Print, separator: &[u8], word: u32) {
    put(out, separator);
    put_number(out, u64::from(word));
}

// A word in decimal, after a blank.
pub fn put_next(out: &impl Print, word: u32) {
    put_word(out, b" ", word);
}

// A byte as two hexadecimal digits.
pub fn put_byte(out: &impl Print, byte: u8) {
    let _ = print!(out; "{byte:02x}");
}

// A count in decimal, after a blank.
pub fn put_count(out: &impl Print, count: usize) {
    put(out, b" ");
    put_number(out, count as u64);
}

pub fn end_line(out: &impl Print) {
    put(out, b"\n");
}

// The sum of words that are not shown.
pub fn put_sum(out: &impl Print, sum: u64) {
    put(out, b" sum ");
    put_number(out, sum);
}

// Words or bytes, each as it stands in a row.
pub fn put_row<T: Unit>(out: &impl Print, units: &[T]) {
    for unit in units {
        unit.put(out);
    }
}
