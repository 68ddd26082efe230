// What a merge keeps beside the arena.

use splicing::ends::Ends;

// The sums with which a walk enters what is left of the older list and of the newer one, and the ends of the open result.
// The two heads are no fields, but values: from a struct that is lent a head is read anew at each run, and a merge takes 1 to
// 2.5 % more instructions (tried). So it does, up to 4 % more, with a run's head, key and q in a struct by value (tried).
#[derive(Clone, Copy)]
pub struct Beside {
    pub olders: [u32; 9],
    pub newers: [u32; 9],
    pub ends: Ends,
}
