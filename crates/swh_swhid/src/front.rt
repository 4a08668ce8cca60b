//! How far texts agree.

ghost use Rattle.std.specs.Prelude.{◌≡◌, ◌≤◌, length, take, drop};
ghost use Rattle.swh_swhid.specs.Front.{common};

/// How many bytes at the front of the two are the same.
pub fn shared(word: &[u8], text: &[u8]) -> usize
    ensures { result ≡ common word.now text.now }
{
    for (i, c) in word.iter().enumerate() {
        if i >= text.len() {
            return i;
        }
        if text[i] != *c {
            return i;
        }
    }
    word.len()
}

/// What stands after the first bytes.
pub fn behind(text: &[u8], count: usize) -> &[u8]
    requires { count ≤ length text.now }
    ensures { result.now ≡ drop count text.now }
{
    &text[count..]
}

/// The first bytes.
pub fn front(text: &[u8], count: usize) -> &[u8]
    requires { count ≤ length text.now }
    ensures { result.now ≡ take count text.now }
{
    &text[..count]
}
