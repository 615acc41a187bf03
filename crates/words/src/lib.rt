// Bytes and little-endian words, read at any position.
#![tactic(auto)]

ghost use Rattle.std.specs.Prelude.{◌≡◌, ◌<◌, drop, get_or};
ghost use Rattle.words.specs.Word.{word_at};

// Byte i of s, or 0 where there is none.
pub fn byte_at(s: &[u8], i: usize) -> u8
    ensures { result ≡ get_or s.now i 0 }
{
    if i < s.len() { s[i] } else { 0 }
}

// The number that a byte is.
pub fn wide(b: u8) -> usize
    ensures { (result ≡ b) × (result < 256) }
{
    b as usize
}

// The word at byte i of s, low byte first.
#[tactic(auto, unfolding(crate::specs::Word::word_at))]
pub fn word_at(s: &[u8], i: usize) -> usize
    ensures { (result ≡ word_at s.now i) × (result < 65536) }
{
    if i < s.len() {
        wide(byte_at(s, i)) + 256 * wide(byte_at(s, i + 1))
    } else {
        0
    }
}

// The part of s from byte i on, empty past the end.
pub fn part_from(s: &[u8], i: usize) -> &[u8]
    ensures { result.now ≡ drop i s.now }
{
    if i <= s.len() { &s[i..] } else { &s[..0] }
}
