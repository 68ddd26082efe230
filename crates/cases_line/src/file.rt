// The face file of a case.
use crate::line::Line;
use cases_shown::print::{end_line, put_count, put_word};

// What the reader of face files answers.
fn show_face(out: &impl Print, face: facefile::Face) {
    put_word(out, b"face ", face.number);
    put_count(out, face.gauges);
    put_count(out, face.sizes);
    end_line(out);
}

// Takes the file that stands next in a line, and shows what the reader says of it. Answers how many bytes it has.
pub fn take_file(out: &impl Print, mut line: Line<'_>, file: &mut [u8]) -> usize {
    let bytes = line.bytes(file);
    show_face(out, facefile::read(&file[..bytes]));
    bytes
}
