// One case: its name, and its file or its call.
use crate::calls::make;
use crate::letter::{Arena, Call};
use cases_line::file::take_file;
use cases_line::line::Line;
use cases_shown::print::put;

// What a case gives. The file that is lent has so many bytes, and the answer is how many it has then. A letter that is of no
// call prints the first words of an arena.
pub fn show_case(out: &impl Print, text: &[u8], file: &mut [u8], bytes: usize) -> usize {
    let line = Line::after_name(out, text);
    let [_, letter, _, rest @ ..] = line.rest else {
        put(out, b"no case\n");
        return bytes;
    };
    let line = Line { rest };
    if *letter == b'F' {
        return take_file(out, line, file);
    }
    let call = Call::try_from(*letter).unwrap_or(Call::Arena(Arena::Words));
    match file.get(..bytes) {
        Some(file) => make(out, call, line, file),
        None => put(out, b"no file\n"),
    }
    bytes
}
