ghost use Rattle.std.specs.Prelude.{◌≡◌};
ghost use Rattle.first_world_terms.specs.Script.{connection_of};
ghost use Rattle.script_lines.specs.Digits.{number_after};

/// The number of a connection, two bytes in decimal with no leading zero; `None` for another text.
#[tactic(auto, using(crate::proofs::NumberLemmas::connections))]
pub fn read_connection(text: &[u8]) -> Option<u16>
    ensures { result ≡ connection_of text.now }
{
    if text.is_empty() || (text.len() != 1 && text[0] == b'0') {
        return None;
    }
    digits_within(text)
}

// The number of these digits. The loop ends where the number is too large, so it never wraps.
#[tactic(auto, using(crate::proofs::NumberLemmas::digit_steps))]
fn digits_within(text: &[u8]) -> Option<u16>
    ensures { result ≡ number_after 0 text.now }
{
    let mut value: u32 = 0;
    for b in text {
        if !b.is_ascii_digit() {
            return None;
        }
        value = value * 10 + u32::from(*b - b'0');
        if value > u32::from(u16::MAX) {
            return None;
        }
    }
    Some(value as u16)
}
