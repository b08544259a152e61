ghost use Rattle.std.specs.Prelude.{◌≡◌, ◌≢◌, ◌∷◌, ◌<◌, ◌≤◌, ℕ, length, IfSome, slice_index};
ghost use Rattle.std.specs.Option.{option_copied};
ghost use Rattle.first_topic_name.specs.Pieces.{pieces, pieces_after};

/// The bytes before the first separator, and those behind it; `None` where no separator is there.
#[tactic(auto, using(crate::proofs::PiecesLemmas::pieces_at, crate::proofs::PiecesLemmas::pieces_whole))]
pub fn first_piece(bytes: &[u8], separator: u8) -> (&[u8], Option<&[u8]>)
    ensures pieces { pieces separator bytes.now ≡ result.0.now ∷ pieces_after separator (option_copied result.1) }
    ensures shorter { IfSome (option_copied result.1) (λ rest. length rest < length bytes.now) }
{
    let at = place_of(bytes, separator);
    if at < bytes.len() {
        (&bytes[..at], Some(&bytes[at + 1..]))
    } else {
        (bytes, None)
    }
}

// Where the separator stands first; the length where it stands nowhere.
fn place_of(bytes: &[u8], separator: u8) -> usize
    ensures within { result ≤ length bytes.now }
    ensures before { (k : ℕ) → k < result → slice_index bytes.now k ≢ separator }
    ensures found { result < length bytes.now → slice_index bytes.now result ≡ separator }
{
    for (i, b) in bytes.iter().enumerate() {
        if *b == separator {
            return i;
        }
    }
    bytes.len()
}
