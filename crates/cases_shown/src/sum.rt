// Words or bytes in one number, for those of a long row that are not shown. tools/making/case.py states the same formula.
use crate::rooms::Unit;

const MODULUS: u64 = 1_000_003;

// A sum with one word more.
pub fn with_word(sum: u64, word: u32) -> u64 {
    (31 * (sum % MODULUS) + u64::from(word)) % MODULUS
}

pub fn sum_of<T: Unit>(units: &[T]) -> u64 {
    units
        .iter()
        .fold(0, |sum, unit| with_word(sum, (*unit).into()))
}
