// What a call left, as text on standard output, and the rooms of which a call is lent parts. The levels call and the
// gauge-bytes call are made here too: they need nothing else.
#![tactic(auto)]

pub mod buffers;
pub mod byte_calls;
mod ends;
pub mod kept;
pub mod list;
pub mod print;
mod record;
pub mod rooms;
mod sum;
