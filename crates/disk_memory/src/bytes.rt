// Writes to bytes in memory, whole, by halves and with one byte everywhere.
ghost use Rattle.std.specs.Prelude.{◌≡◌, ◌+◌, ◌/◌, ◌≤◌, length, take, replicate, vec_len, OnOk, OnErr};
ghost use Rattle.outside.specs.DiskModel.{written_at};
ghost use Rattle.disk_memory.specs.PlainDisk.{grown};

use std::alloc::{AllocError, Global};

/// Writes a piece at a place. Where memory is refused, the bytes stay.
pub(crate) fn write_bytes(bytes: &mut Vec<u8>, at: usize, piece: &[u8]) -> Result<(), AllocError>
    requires { at ≤ vec_len bytes.old }
    ensures ok { OnOk result (bytes.new.items ≡ written_at at piece.now bytes.old.items) }
    ensures err { OnErr result (bytes.new.items ≡ bytes.old.items) }
{
    let over = piece.len().min(bytes.len() - at);
    bytes.extend_from_slice(&piece[over..])?;
    bytes[at..at + over].copy_from_slice(&piece[..over]);
    Ok(())
}

/// Writes the first half of a piece. What the whole would have added past the end is 00.
pub(crate) fn write_half(bytes: &mut Vec<u8>, at: usize, piece: &[u8]) -> Result<(), AllocError>
    requires { at ≤ vec_len bytes.old }
    ensures { OnOk result (bytes.new.items ≡ grown (at + length piece.now)
        (written_at at (take (length piece.now / 2) piece.now) bytes.old.items)) }
{
    let end = at + piece.len();
    write_bytes(bytes, at, &piece[..piece.len() / 2])?;
    if bytes.len() < end {
        bytes.resize(end, 0)?;
    }
    Ok(())
}

/// Writes one byte so many times.
pub(crate) fn write_filled(
    alloc: Global,
    bytes: &mut Vec<u8>,
    at: usize,
    count: usize,
    byte: u8,
) -> Result<(), AllocError>
    requires { at ≤ vec_len bytes.old }
    ensures { OnOk result (bytes.new.items ≡ written_at at (replicate count byte) bytes.old.items) }
{
    let piece = vec![in alloc; byte; count]?;
    write_bytes(bytes, at, piece.as_slice())?;
    Ok(())
}
