// A day's word: 64 times its sum over the event, and its nearness to it, so that one comparison of two words is document 01's order, the tie rule
// included.
#![tactic(auto)]

ghost use Rattle.std.specs.Prelude.{◌≡◌, ◌+◌, ◌*◌, ◌%◌, ◌^◌};

// 64 times the rest of a sum by this fits a word.
const TWO_TO_58: u64 = 288230376151711744;

// The nearness of D itself: the farthest day of the look-back has 1, so that its word is not 0.
pub const NEAREST: u32 = method::LOOK_BACK + 1;

// The word of a day, as a number of 64 bits: a sum below 2 ^ 57 loses nothing.
pub fn word(sum: u64, nearness: u32) -> u64
    ensures { result ≡ (64 * sum + nearness) % 2 ^ 64 }
{
    (64 * (sum % TWO_TO_58)).wrapping_add(u64::from(nearness))
}

// A day's nearness, out of its word.
pub fn nearness_of(word: u64) -> u32
    ensures { result ≡ word % 64 }
{
    (word % 64) as u32
}
