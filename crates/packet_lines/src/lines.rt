// Lines and words.
ghost use Rattle.std.specs.Prelude.{◌≡◌, ◌≢◌, ◌∷◌, ◌++◌, ◌<◌, ◌≤◌, ℕ, length, map, IfOk, IfSome, slice_index};
ghost use Rattle.std.specs.Option.{option_copied};
ghost use Rattle.packet_lines.specs.Lines.{lines, words, words_behind};

use std::alloc::{AllocError, Global};

/// The first line of these bytes, of which there are some, and the bytes behind the line feed that ends it.

pub fn first_line(bytes: &[u8]) -> (&[u8], &[u8])
    requires { 0 < length bytes.now }
    ensures lines { lines bytes.now ≡ result.0.now ∷ lines result.1.now }
    ensures shorter { length result.1.now < length bytes.now }
{
    let at = place_of(bytes, b'\n');
    if at < bytes.len() {
        (&bytes[..at], &bytes[at + 1..])
    } else {
        (bytes, &bytes[at..])
    }
}

/// The words of a line, which one blank parts.
pub fn words_of(alloc: Global, line: &[u8]) -> Result<Vec<&[u8]>, AllocError>
    ensures { IfOk result (λ found. map (λ w. w.now) found.items ≡ words line.now) }
{
    let mut found = Vec::new(alloc);
    let mut rest = line;
    'words: loop {
        let (word, behind) = first_word(rest);
        found.push(word)?;
        match behind {
            None => return Ok(found),
            Some(behind) => rest = behind,
        }
    }
}

// The bytes before the first blank, and those behind it; `None` where no blank is there.

fn first_word(bytes: &[u8]) -> (&[u8], Option<&[u8]>)
    ensures words { words bytes.now ≡ result.0.now ∷ words_behind (option_copied result.1) }
    ensures shorter { IfSome (option_copied result.1) (λ rest. length rest < length bytes.now) }
{
    let at = place_of(bytes, b' ');
    if at < bytes.len() {
        (&bytes[..at], Some(&bytes[at + 1..]))
    } else {
        (bytes, None)
    }
}

// Where a byte stands first; the length where it stands nowhere.
fn place_of(bytes: &[u8], wanted: u8) -> usize
    ensures within { result ≤ length bytes.now }
    ensures before { (k : ℕ) → k < result → slice_index bytes.now k ≢ wanted }
    ensures found { result < length bytes.now → slice_index bytes.now result ≡ wanted }
{
    for (i, b) in bytes.iter().enumerate() {
        if *b == wanted {
            return i;
        }
    }
    bytes.len()
}
