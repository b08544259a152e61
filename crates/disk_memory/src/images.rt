// What a crash leaves of the writes since the last sync, by the number of the image.
ghost use Rattle.std.specs.Prelude.{◌≡◌, ◌≤◌, map, OnOk};
ghost use Rattle.disk_memory.specs.Images.{image_after, with_write};
ghost use Rattle.disk_memory.specs.Kept.{plain};

use crate::bytes::{write_bytes, write_filled, write_half};
use crate::contents::Write;
use std::alloc::{AllocError, Global};

/// The byte that image 3 has in the range of each pending write.
pub(crate) const FILL_A5: u8 = 0xa5;

/// The byte that image 4 has there.
pub(crate) const FILL_01: u8 = 0x01;

// What a crash leaves of one write.
fn leave_write(alloc: Global, image: &mut Vec<u8>, write: &Write, n: u8) -> Result<(), AllocError>
    ensures { OnOk result (image.new.items ≡ with_write n (plain write.now) image.old.items) }
{
    let at = write.at;
    if n == 0 || at > image.len() {
        return Ok(());
    }
    if n == 1 {
        write_bytes(image, at, write.bytes.as_slice())?;
    } else if n == 2 {
        write_half(image, at, write.bytes.as_slice())?;
    } else if n == 3 {
        write_filled(alloc, image, at, write.bytes.len(), FILL_A5)?;
    } else {
        write_filled(alloc, image, at, write.bytes.len(), FILL_01)?;
    }
    Ok(())
}

/// What a crash leaves of all of them, where the bytes are those of the last sync.
pub(crate) fn leave_writes(
    alloc: Global,
    bytes: &mut Vec<u8>,
    writes: &[Write],
    n: u8,
) -> Result<(), AllocError>
    ensures { OnOk result (bytes.new.items ≡ image_after n bytes.old.items (map plain writes.now)) }
{
    for write in writes {
        leave_write(alloc, bytes, write, n)?;
    }
    Ok(())
}
