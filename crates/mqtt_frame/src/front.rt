// What stands at the front of a stream.
ghost use Rattle.std.specs.Prelude.{◌≡◌, length};
ghost use Rattle.mqtt_frame.specs.Framing.{IsThere, front_of, front_sized};

use crate::refused::BadHeader;
use wire_fields::{Cut, take_var};

/// What stands at the front of a stream: a whole packet of so many bytes, one that has begun, or a bad header.
#[derive(Clone, Copy)]
pub(crate) enum Front {
    Whole(usize),
    Begun,
    Refused(BadHeader),
}

pub(crate) fn front_of(limit: u32, bytes: &[u8]) -> Front
    ensures exact { result ≡ front_of limit bytes.now }
    ensures there { IsThere result (length bytes.now) }
{
    let mut at = 1;
    match take_var(bytes, &mut at) {
        Ok(remaining) => front_sized(limit, bytes.len(), at + remaining as usize),
        Err(Cut::Short) => Front::Begun,
        Err(Cut::Bad) => Front::Refused(BadHeader::Length),
    }
}

// A packet of so many bytes, of which so many are there.
fn front_sized(limit: u32, there: usize, size: usize) -> Front
    ensures { result ≡ front_sized limit there size }
{
    if (limit as usize) < size {
        Front::Refused(BadHeader::Size)
    } else if size <= there {
        Front::Whole(size)
    } else {
        Front::Begun
    }
}
