// The calls that answer bytes: the levels call, and the gauge-bytes call.
use crate::print::{end_line, put, put_row, put_word};

pub fn call_levels(out: &impl Print, file: &[u8], levels: &mut [u8]) {
    let number = levels::fill(file, levels);
    put_word(out, b"levels ", number);
    put(out, b" ");
    put_row(out, levels);
    end_line(out);
}

pub fn call_gauge(out: &impl Print, file: &[u8], gauge: u32) {
    put(out, b"gauge ");
    put_row(out, facefile::gauge_bytes(file, gauge));
    end_line(out);
}
