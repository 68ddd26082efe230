// The words that the bytes of a case's file are: four bytes a word, the high byte first. Bytes at the end that fill no word
// are left out.
ghost use Rattle.std.specs.Prelude.{◌≤◌, length};

// Puts the words of bytes to the start of a buffer, as far as it has room, and answers how many they are.
pub fn take_words(bytes: &[u8], words: &mut [u32]) -> usize
    ensures { result ≤ length words.new }
{
    let (given, _) = bytes.as_chunks::<4>();
    let count = given.len().min(words.len());
    for (word, given) in words.iter_mut().zip(given) {
        *word = u32::from_be_bytes(*given);
    }
    count
}
