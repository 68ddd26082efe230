// Bytes that stand in a line in hexadecimal.
ghost use Rattle.std.specs.Prelude.{◌+◌, ◌≤◌, ◌<◌, length, OnSome};

use crate::line::Line;

// What a byte stands for as a hexadecimal digit: 16 or more if it is none.
fn hex_digit(byte: u8) -> u8 {
    match byte {
        b'0'..=b'9' => byte - b'0',
        b'a'.. => byte - b'a' + 10,
        _ => 16,
    }
}

impl Line<'_> {
    // The byte of the two digits that stand next, where the first is one; of another second one it is some byte.
    fn byte(&mut self) -> Option<u8>
        ensures some { OnSome result (length self.new.rest.now < length self.old.rest.now) }
        ensures all { length self.new.rest.now ≤ length self.old.rest.now }
    {
        let [high, low, rest @ ..] = self.rest else {
            return None;
        };
        let high = hex_digit(*high);
        if high > 15 {
            return None;
        }
        let byte = (16 * high).wrapping_add(hex_digit(*low));
        self.rest = rest;
        Some(byte)
    }

    // How many times the byte before it stands.
    fn times(&mut self) -> usize
        ensures { length self.new.rest.now ≤ length self.old.rest.now }
    {
        if !self.skip(b'*') {
            return 1;
        }
        let times = self.number();
        self.skip(b',');
        times as usize
    }

    // Puts the bytes that stand next to the start of a buffer, as far as it has room, and answers how many they are.
    pub fn bytes(&mut self, bytes: &mut [u8]) -> usize
        ensures { result ≤ length bytes.new }
    {
        let mut length = 0;
        while let Some(byte) = self.byte() {
            let times = self.times().min(bytes.len() - length);
            bytes[length..length + times].fill(byte);
            length += times;
        }
        length
    }
}
