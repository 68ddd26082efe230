// Whether a call left its buffers as they were.
use crate::print::{end_line, put};
use crate::rooms::Unit;

// Whether what a name stands for is as it was before the call.
pub fn put_kept<T: Unit>(out: &impl Print, name: &[u8], units: &[T]) {
    put(out, name);
    let kept = units.iter().all(|unit| *unit == T::BEFORE);
    put(out, if kept { b" kept" } else { b" changed" });
}

// Whether each of three buffers is as it was.
pub fn show_all_kept<T: Unit>(out: &impl Print, arena: &[u32], scratch: &[u32], output: &[T]) {
    put_kept(out, b"arena", arena);
    put_kept(out, b" scratch", scratch);
    put_kept(out, b" output", output);
    end_line(out);
}

// Whether the output is as it was.
pub fn show_output_kept<T: Unit>(out: &impl Print, output: &[T]) {
    put_kept(out, b"output", output);
    end_line(out);
}
