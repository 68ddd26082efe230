// An item in one word. The word stays a plain u32: the scratch is lent as words, and the merge adds to them, so a struct
// around one would be taken off and put on again at every read, sum and store.
ghost use Rattle.std.specs.Prelude.{◌≡◌, ◌+◌, ◌*◌, ◌/◌, ◌%◌, ◌<◌};

// m in the high half, p in the low half.
pub fn packed(m: u32, p: u32) -> u32
    requires { (m < 65536) × (p < 65536) }
    ensures { result ≡ 65536 * m + p }
{
    65536 * m + p
}

pub fn m_of(w: u32) -> u32
    ensures { result ≡ w / 65536 }
{
    w / 65536
}

pub fn p_of(w: u32) -> u32
    ensures { result ≡ w % 65536 }
{
    w % 65536
}

// m and p change places.
pub fn swapped(w: u32) -> u32
    ensures { result ≡ 65536 * (w % 65536) + w / 65536 }
{
    65536 * (w % 65536) + w / 65536
}
