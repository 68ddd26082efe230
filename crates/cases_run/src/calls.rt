// The call of a case.
use crate::lending::lend;
use crate::letter::{Arena, Call};
use cases_line::given::{Given, Numbers};
use cases_line::line::Line;
use cases_listing::{call_read, call_words};
use cases_material::call_sheet;
use cases_saving::{call_again, call_saved, call_worded};
use cases_shown::buffers::call_text;
use cases_shown::byte_calls::{call_gauge, call_levels};
use cases_shown::rooms::LEVELS;

// A call on an arena.
fn call_arena(out: &impl Print, call: Arena, given: Given<'_>) {
    match call {
        Arena::Lent(call) => lend(out, call, given),
        Arena::Sheet => call_sheet(out, given),
        Arena::Read(end) => call_read(out, given, end),
        Arena::Words => call_words(out, given),
    }
}

// Makes a call on a file, with what stands next in a line.
pub fn make(out: &impl Print, call: Call, mut line: Line<'_>, file: &[u8]) {
    let mut levels = [0u8; LEVELS];
    let count = line.bytes(&mut levels);
    let levels = &mut levels[..count];
    let numbers = Numbers::read(&mut line);
    match call {
        Call::Levels => call_levels(out, file, levels),
        Call::Gauge => call_gauge(out, file, numbers.height),
        Call::FacesText => call_text(
            out,
            file,
            numbers.output,
            |file, text| report::faces_text(file, text),
        ),
        Call::MaterialText => call_text(
            out,
            file,
            numbers.output,
            |file, text| materialtext::material_text(file, text),
        ),
        Call::Saved => call_saved(out, file, numbers.output),
        Call::Worded => call_worded(out, file, numbers.output),
        Call::Again => call_again(out, file),
        Call::Arena(call) => {
            let given = Given {
                file,
                levels,
                numbers,
                replaced: line,
            };
            call_arena(out, call, given);
        }
    }
}
