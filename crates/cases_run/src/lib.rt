// What the calls give on cases from standard input. tools/make_cases.py makes the stored cases, and tools/run_cases.py any
// number of others, each with what is expected of it.
//
// A case is a line: six digits, the number of bytes after the blank that follows them, at most 65,536; then that blank and
// so many bytes. They end with the line's end, and have one of two forms:
//
//     NAME: F FILE
//     NAME: CALL LEVELS HEIGHT WIDTH ARENA SCRATCH OUTPUT RIB
//
// NAME has no colon. It is printed with its colon, and after it what the case gives.
//
// F gives the file of the cases that follow, and prints what facefile::read answers of it: its number, and the counts of
// gauges and of sizes.
//
// CALL is one letter, of a call on that file. FILE and LEVELS are bytes in hexadecimal, of lower case, and may be empty;
// 01*3 is 010101, and 01*3,02 is 01010102. The others are decimal: the opening, how many words of each buffer the call is
// lent, at most 16,400, 16,400 and 904, and the rib. One sign stands between two. A case may end after any of them, and
// those that it leaves out are 0.
//
//     l   the list call
//     f   the fit call
//     v   the levels call, lent LEVELS as its buffer
//     g   the gauge-bytes call, of gauge HEIGHT
//     m   the sheet call, lent an output of OUTPUT bytes, at most 13,700
//     t   the text of `faces`, in a buffer of OUTPUT bytes, at most 13,700
//     p   the text of `material`, in the same way
//     r   the reading call, of place WIDTH, on the first ARENA words of an arena that is made so: each word is HEIGHT;
//         then the list call is made on the file, LEVELS and RIB, which leaves the arena where it refuses them; then
//         words are replaced. After RIB come numbers with a sign before each: @I goes to word I, and a blank and a number
//         puts the number there and goes on to the next word.
//     b   the same from the low end, of place WIDTH from there
//     d   the list call, and then the first ARENA words of its arena
//     c   the catalogue call, lent HEIGHT heights, at most 16,400: each is WIDTH, then some are replaced as in `r`
//     s   the writing call, in a buffer of OUTPUT bytes, at most 13,700, on the words that the file is: four bytes a word,
//         the high byte first, and bytes at the end that fill no word are left out
//     w   the reading call of a file to words, in a buffer of OUTPUT words, at most 16,400
//     a   the same in a room for every face, and the words written to a file again
//
// Before a call each word of a lent buffer is 2,863,311,530. The list, fit and catalogue calls print their number and
// fields; where they are taken, the output's words and whether those after are as they were; the record, level, m and
// true p of each item of the arena's list, m and p as the reading call gives them, and the numbers with which that call
// refuses place 0 and the place after the last; and of a refusal whether each buffer is as it was. Of a long list or
// output the first items or words are printed, and a sum of the others. The words `but back` come after a list where the
// back word of a record on it, or of the head, is not right, and `but low` where the reading call gives something else from
// the low end than from the top.
//
// A byte buffer has 170 in each byte before a call. `t` and `p` print the text, and whether the bytes after it are as they
// were. `m` prints the number and the length; where the call is taken the text in the same way, and the arena's list as
// above; at 19 whether the output is as it was, and the list; and of any other refusal whether each buffer is.
//
// `s` prints the number and the length; where the call is taken, the file in hexadecimal and whether the bytes after it are
// as they were, and then the file read to words again: number, count, and how many of the words that it was written from
// are not the same. `w` prints the number and the count, and the output as above. `a` prints the number and the count of
// the words, and where the file is taken the number and the length of the one that is written again, and how many bytes of
// the given one are not the same in it.
#![tactic(auto)]

mod calls;
mod case;
mod cataloguing;
mod fitting;
mod lending;
mod letter;

ghost use Rattle.std.specs.Prelude.{◌≤◌, IfSome};

use cases_line::line::Line;
use input::read_input;
use std::io::Read;

// The most cases of a run. A loop has to end, and an input need not.
const CASES: u64 = 1_000_000_000;

// The most bytes of a case.
const MOST: usize = 65_536;

// The number of bytes of the next case, where the input has not ended.
fn next_length(source: &mut impl Read) -> Option<usize>
    ensures { IfSome result (λ length. length ≤ 65_536) }
{
    let mut head = [0u8; 7];
    if read_input(source, &mut head).length < head.len() {
        return None;
    }
    let mut line = Line { rest: &head };
    let length = (line.number() as usize).min(MOST);
    if length == 0 { None } else { Some(length) }
}

// Reads a case, as many bytes as there is room for, and shows what it gives. The file that is lent has so many bytes, and
// the answer is how many it has then.
fn show_read(
    out: &impl Print,
    source: &mut impl Read,
    room: &mut [u8],
    file: &mut [u8],
    bytes: usize,
) -> usize {
    let length = read_input(source, room).length;
    case::show_case(out, &room[..length], file, bytes)
}

// The same for a case of a length.
fn show_sized(
    out: &impl Print,
    source: &mut impl Read,
    length: usize,
    file: &mut [u8],
    bytes: usize,
) -> usize
    requires { length ≤ 65_536 }
{
    let mut room = [0u8; MOST];
    show_read(out, source, &mut room[..length], file, bytes)
}

// All cases, with room for a file.
fn show_cases(out: &impl Print, source: &mut impl Read, file: &mut [u8]) {
    let mut bytes = 0;
    for _ in 0..CASES {
        let Some(length) = next_length(source) else {
            return;
        };
        bytes = show_sized(out, source, length, file, bytes);
    }
}

// Shows what each case from standard input gives.
pub fn run(rt: &(impl Input + Print)) {
    let mut file = [0u8; MOST];
    show_cases(rt, &mut rt.reader(), &mut file);
}
