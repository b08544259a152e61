ghost use Rattle.std.specs.Prelude.{◌≡◌};
ghost use Rattle.first_world_terms.specs.Script.{first_bad_line, line_texts};

use crate::line::is_line;
use first_topic_name::first_piece;

/// The number, from 1 on, of the first line outside the grammar; `None` where each is a line.
#[tactic(auto, using(crate::proofs::BadLineLemmas::line_steps))]
pub fn first_bad(script: &[u8]) -> Option<u64>
    ensures { result ≡ first_bad_line 1 (line_texts script.now) }
{
    let mut number: u64 = 1;
    let mut rest = script;
    'lines: loop {
        let (text, behind) = first_piece(rest, b'\n');
        if !is_line(text) {
            return Some(number);
        }
        match behind {
            None => return None,
            Some(behind) => {
                number += 1;
                rest = behind;
            }
        }
    }
}
