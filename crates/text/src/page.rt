// A lent buffer that is written from its start on. Each method asks room for the very values that it writes, and leaves
// the page at the place after them.
ghost use Rattle.std.specs.Prelude.{◌≡◌, [], ◌∷◌, ◌+◌, ◌≤◌, length};
ghost use Rattle.text.specs.Decimal.{decimal};
ghost use Rattle.text.specs.Fields.{field, named};
ghost use Rattle.text.specs.inside.Appending.{Appended};
ghost use Rattle.text.specs.inside.Writing.{Fits, Wrote};

// The buffer, and the place in it of the next value.
#[derive(Drop)]
pub struct Page<'a, T> {
    pub buffer: &'a mut [T],
    pub at: usize,
}

impl<'a, T: Copy> Page<'a, T> {
    // A page on which nothing is written.
    pub fn new(buffer: &'a mut [T]) -> Page<'a, T>
        ensures { result ≡ record { buffer = buffer.entry; at = 0 } }
    {
        Page { buffer, at: 0 }
    }

    // One value.
    pub fn put(&mut self, x: T)
        requires { Fits self.old (x ∷ []) }
        ensures { Wrote self.old (x ∷ []) self.new }
    {
        self.buffer[self.at] = x;
        self.at += 1;
    }

    // A copy of values.
    pub fn copy(&mut self, values: &[T])
        requires { Fits self.old values.now }
        ensures { Wrote self.old values.now self.new }
    {
        let next = self.at + values.len();
        self.buffer[self.at..next].copy_from_slice(values);
        self.at = next;
    }
}

// A number in base ten at a place of a buffer: what comes before its last digit, if anything does, and then that digit.
// Answers the place after it. The place is a value here: that of a page would be loaded and stored at each digit.
fn put_number(buffer: &mut [u8], at: usize, n: u32) -> usize
    requires { at + length (decimal n) ≤ length buffer.old }
    ensures { Appended buffer.old at (decimal n) buffer.new result }
{
    if n < 10 {
        buffer[at] = b'0' + n as u8;
        return at + 1;
    }
    let last = put_number(buffer, at, n / 10);
    buffer[last] = b'0' + (n % 10) as u8;
    last + 1
}

impl<'a> Page<'a, u8> {
    // A number in base ten.
    pub fn number(&mut self, n: u32)
        requires { Fits self.old (decimal n) }
        ensures { Wrote self.old (decimal n) self.new }
    {
        self.at = put_number(self.buffer, self.at, n);
    }

    // A number and the byte that ends it.
    pub fn field(&mut self, n: u32, end: u8)
        requires { Fits self.old (field n end) }
        ensures { Wrote self.old (field n end) self.new }
    {
        self.number(n);
        self.put(end);
    }

    // Words, and then a number with the byte that ends it.
    pub fn named(&mut self, words: &[u8], n: u32, end: u8)
        requires { Fits self.old (named words.now n end) }
        ensures { Wrote self.old (named words.now n end) self.new }
    {
        self.copy(words);
        self.field(n, end);
    }
}
