// A number in decimal.
ghost use Rattle.std.specs.Prelude.{◌≡◌};
ghost use Rattle.packet_lines.specs.Command.{limit_of};
ghost use Rattle.packet_lines.specs.Digits.{number_after};

/// The number of four bytes that a word is in decimal, with no leading zero; `None` for another word.
#[tactic(auto, using(crate::proofs::NumberLemmas::limits))]
pub fn limit_of(word: &[u8]) -> Option<u32>
    ensures { result ≡ limit_of word.now }
{
    if word.is_empty() || (word.len() != 1 && word[0] == b'0') {
        return None;
    }
    digits_within(word)
}

// The number of these digits. The loop ends where the number is too large, so it never wraps.
#[tactic(auto, using(crate::proofs::NumberLemmas::digit_steps))]
fn digits_within(word: &[u8]) -> Option<u32>
    ensures { result ≡ number_after 0 word.now }
{
    let mut value: u64 = 0;
    for b in word {
        if !b.is_ascii_digit() {
            return None;
        }
        value = value * 10 + u64::from(*b - b'0');
        if value > u64::from(u32::MAX) {
            return None;
        }
    }
    Some(value as u32)
}
