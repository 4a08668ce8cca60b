//! How far bytes go that some line begins with.

ghost use Rattle.swh_revfmt.specs.Reading.{NotLine, IsCommonFront, IsIdDigitsFront, IsLinePlace};

use swh_base::is_lower_hex_digit;

/// How many bytes at the front are those of a line.
pub fn common_front(line: &[u8], bytes: &[u8]) -> usize
    ensures { IsCommonFront line.now bytes.now result }
{
    for (i, byte) in bytes.iter().enumerate() {
        if i == line.len() || line[i] != *byte {
            return i;
        }
    }
    bytes.len()
}

/// How many bytes at the front are digits of an id.
fn digits_front(bytes: &[u8]) -> usize
    ensures { IsIdDigitsFront bytes.now result }
{
    for (i, byte) in bytes.iter().enumerate() {
        if i == 40 || !is_lower_hex_digit(*byte) {
            return i;
        }
    }
    bytes.len()
}

/// How many bytes go as a line of this word and an id, where they begin with no whole one.
pub fn line_place(word: &[u8], bytes: &[u8]) -> usize
    requires { NotLine word.now bytes.now }
    ensures { IsLinePlace word.now bytes.now result }
{
    let common = common_front(word, bytes);
    if common < word.len() {
        return common;
    }
    common + digits_front(&bytes[common..])
}
