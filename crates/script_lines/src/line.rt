ghost use Rattle.std.specs.Prelude.{◌≡◌, IfOk};
ghost use Rattle.std.specs.Option.{is_some, option_map};
ghost use Rattle.script_lines.specs.LineView.{line_of_fields};
ghost use Rattle.first_world_terms.specs.Script.{line_of};

use crate::hexadecimal::{is_bytes, read_bytes};
use crate::parts::{Parts, parts_of};
use std::alloc::{AllocError, Global};

/// What a line of a script does: nothing, open a connection, send bytes on it, or pump it.
#[derive(Debug, Drop)]
pub enum Line {
    Nothing,
    Open(u16),
    Send(u16, Vec<u8>),
    Pump(u16),
}

/// The line of this text, `None` where it is outside the grammar.
pub fn read_line(alloc: Global, text: &[u8]) -> Result<Option<Line>, AllocError>
    ensures { IfOk result (λ found. option_map line_of_fields found ≡ line_of text.now) }
{
    match parts_of(text) {
        None => Ok(None),
        Some(Parts::NoWords) => Ok(Some(Line::Nothing)),
        Some(Parts::OpenWords(connection)) => Ok(Some(Line::Open(connection))),
        Some(Parts::PumpWords(connection)) => Ok(Some(Line::Pump(connection))),
        Some(Parts::SendWords(connection, digits)) => match read_bytes(alloc, digits)? {
            None => Ok(None),
            Some(bytes) => Ok(Some(Line::Send(connection, bytes))),
        },
    }
}

/// Whether the text is a line. Takes no memory.
pub fn is_line(text: &[u8]) -> bool
    ensures { result ≡ is_some (line_of text.now) }
{
    match parts_of(text) {
        None => false,
        Some(Parts::SendWords(_, digits)) => is_bytes(digits),
        Some(_) => true,
    }
}
