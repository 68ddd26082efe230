// The words of a buffer that a case replaces.
use crate::line::Line;

impl Line<'_> {
    // Replaces the words that the rest of the line names. A blank and a number put it at a place, and the next one after it;
    // the first place is 0, and after @ another one stands.
    pub fn replace_words(mut self, words: &mut [u32]) {
        let mut place = 0usize;
        while let Some((sign, rest)) = self.rest.split_first() {
            self.rest = rest;
            let number = self.number();
            match *sign {
                b'@' => place = number as usize,
                b' ' => {
                    if let Some(word) = words.get_mut(place) {
                        *word = number;
                    }
                    place = place.saturating_add(1);
                }
                _ => {}
            }
        }
    }
}
