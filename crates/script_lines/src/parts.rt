ghost use Rattle.std.specs.Prelude.{◌≡◌, ◌∷◌, []};
ghost use Rattle.std.specs.Option.{option_copied};
ghost use Rattle.first_topic_name.specs.Pieces.{pieces, pieces_after};
ghost use Rattle.script_lines.specs.LineView.{line_of_words_found};
ghost use Rattle.first_world_terms.specs.Script.{line_of, line_of_words};

use crate::number::read_connection;
use first_topic_name::first_piece;

/// The words of a line: none, or a connection and what is done to it. The digits for bytes are still text.
#[derive(Clone, Copy)]
pub enum Parts<'a> {
    NoWords,
    OpenWords(u16),
    SendWords(u16, &'a [u8]),
    PumpWords(u16),
}

/// The words of this line; `None` where they are outside the grammar, but for the digits for bytes.
pub fn parts_of(text: &[u8]) -> Option<Parts<'_>>
    ensures { line_of_words_found result ≡ line_of text.now }
{
    if text.is_empty() || text[0] == b'#' {
        return Some(Parts::NoWords);
    }
    let (word, behind) = first_piece(text, b' ');
    match behind {
        None => None,
        Some(behind) => parts_behind(word, behind),
    }
}

// The words of a line of this first word.
fn parts_behind<'a>(word: &[u8], behind: &'a [u8]) -> Option<Parts<'a>>
    ensures { line_of_words_found result ≡ line_of_words (word.now ∷ pieces 32 behind.now) }
{
    let (number, more) = first_piece(behind, b' ');
    match more {
        None => parts_of_two(word, number),
        Some(more) => parts_of_more(word, number, more),
    }
}

fn parts_of_two<'a>(word: &[u8], number: &[u8]) -> Option<Parts<'a>>
    ensures { line_of_words_found result ≡ line_of_words (word.now ∷ number.now ∷ []) }
{
    if word == b"open".as_slice() {
        match read_connection(number) {
            None => None,
            Some(connection) => Some(Parts::OpenWords(connection)),
        }
    } else if word == b"pump".as_slice() {
        match read_connection(number) {
            None => None,
            Some(connection) => Some(Parts::PumpWords(connection)),
        }
    } else {
        None
    }
}

#[tactic(auto, using(crate::proofs::WordsLemmas::four_words))]
fn parts_of_more<'a>(word: &[u8], number: &[u8], more: &'a [u8]) -> Option<Parts<'a>>
    ensures { line_of_words_found result ≡ line_of_words (word.now ∷ number.now ∷ pieces 32 more.now) }
{
    let (digits, fourth) = first_piece(more, b' ');
    match fourth {
        None => parts_of_three(word, number, digits),
        Some(_) => None,
    }
}

fn parts_of_three<'a>(word: &[u8], number: &[u8], digits: &'a [u8]) -> Option<Parts<'a>>
    ensures { line_of_words_found result ≡ line_of_words (word.now ∷ number.now ∷ digits.now ∷ []) }
{
    if word != b"send".as_slice() {
        return None;
    }
    match read_connection(number) {
        None => None,
        Some(connection) => Some(Parts::SendWords(connection, digits)),
    }
}
