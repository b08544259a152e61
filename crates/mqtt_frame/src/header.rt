// How much of a piece the packet wants that has begun before it.
ghost use Rattle.std.specs.Prelude.{◌≡◌, ◌≤◌, length, IfOk};
ghost use Rattle.mqtt_frame.specs.Missing.{missing, size_within, wanted};

use std::alloc::AllocError;
use wire_fields::take_var;

// The most bytes of a fixed header: the first byte and a Remaining Length of four (MQTT 2.1).
const MOST_HEADER: usize = 5;

// How many bytes to have for the packet whose header begins so. A bad header wants no more than itself.
fn wanted_of(limit: u32, header: &[u8]) -> usize
    ensures { result ≡ wanted limit header.now }
{
    let mut at = 1;
    match take_var(header, &mut at) {
        Ok(remaining) => size_within(limit, at + remaining as usize),
        Err(_) => MOST_HEADER,
    }
}

fn size_within(limit: u32, size: usize) -> usize
    ensures { result ≡ size_within limit size }
{
    if size <= limit as usize {
        size
    } else {
        MOST_HEADER
    }
}

// How many bytes of the piece complete the packet that has begun, so that what stands behind it is framed where it
// stands. The header is read with the piece's first bytes behind what is kept.
pub(crate) fn missing_of(limit: u32, kept: &mut Vec<u8>, piece: &[u8]) -> Result<usize, AllocError>
    ensures exact { IfOk result (λ found. found ≡ missing limit kept.old.items piece.now) }
    ensures within { IfOk result (λ found. found ≤ length piece.now) }
    ensures same { kept.new.items ≡ kept.old.items }
{
    let there = kept.len();
    if there == 0 {
        return Ok(0);
    }
    let head = MOST_HEADER.saturating_sub(there).min(piece.len());
    kept.extend_from_slice(&piece[..head])?;
    let wanted = wanted_of(limit, kept);
    kept.truncate(there);
    Ok(wanted.saturating_sub(there).min(piece.len()))
}
