// What a disk in memory holds: one copy of the bytes, and of each write since the last sync what it takes to undo it.
ghost use Rattle.std.specs.Prelude.{◌≡◌, ◌+◌, ◌<◌, ◌≤◌, [], ◌∷◌, ◌++◌, map, length, take, drop, vec_len, IfOk, OnOk, OnErr};
ghost use Rattle.outside.specs.DiskModel.{written_at};
ghost use Rattle.disk_memory.specs.Images.{image_of};
ghost use Rattle.disk_memory.specs.Kept.{IsLaid, keeping, undone, unwound};
ghost use Rattle.disk_memory.specs.PlainDisk.{PlainWrite, rested, seen_of, settled, with_pending};

use crate::bytes::write_bytes;
use crate::images::leave_writes;
use std::alloc::{AllocError, Global};
use std::marker::Model;
use std::snapshot::Snapshot;

/// A write since the last sync: its place, the intended bytes, how many of them reads give, and what these wrote over.
#[derive(Drop)]
pub(crate) struct Write {
    pub(crate) at: usize,
    pub(crate) bytes: Vec<u8>,
    taken: usize,
    over: Vec<u8>,
}

impl Model for Write {
    ghost use Rattle.disk_memory.specs.Kept.{KeptWrite};

    ghost Value = { KeptWrite };

    ghost view = { λ w. record {
      at = w.at;
      bytes = w.bytes.items;
      taken = w.taken;
      over = w.over.items;
    } };
}

/// The bytes that reads give, and the writes since the last sync.
#[derive(Drop)]
pub(crate) struct Contents {
    bytes: Vec<u8>,
    /// What they were after the last sync. It takes no memory.
    base: Snapshot<Vec<u8>>,
    writes: Vec<Write>,
}

impl Model for Contents {
    ghost use Rattle.std.specs.Prelude.{map};
    ghost use Rattle.disk_memory.specs.PlainDisk.{State};
    ghost use Rattle.disk_memory.specs.Kept.{IsLaid, plain};

    ghost Value = { State };

    ghost view = { λ c. record { base = c.base.value.items; writes = map plain c.writes.items } };

    ghost invariant = { λ c. IsLaid c.base.value.items c.writes.items c.bytes.items };
}

impl Contents {
    /// These bytes, with nothing pending.
    pub(crate) fn of(alloc: Global, bytes: Vec<u8>) -> Contents
        ensures { result ≡ rested bytes.items }
    {
        let base = Snapshot::of(&bytes);
        Contents {
            bytes,
            base,
            writes: Vec::new(alloc),
        }
    }

    /// What reads give.
    pub(crate) fn seen(&self) -> &[u8]
        ensures { result.now ≡ seen_of self.now.base self.now.writes }
    {
        &self.bytes
    }

    /// Adds a write, of which reads give so many bytes.
    pub(crate) fn put(
        &mut self,
        alloc: Global,
        at: usize,
        piece: &[u8],
        taken: usize,
    ) -> Result<(), AllocError>
        requires place { at ≤ length (seen_of self.old.base self.old.writes) }
        requires taken { taken ≤ length piece.now }
        ensures ok { OnOk result (self.new
            ≡ with_pending (record { at = at; bytes = piece.now; taken = taken }) self.old) }
        ensures err { OnErr result (self.new ≡ self.old) }
    {
        add_write(alloc, &mut self.bytes, &mut self.writes, at, piece, taken)?;
        Ok(())
    }

    /// Makes what reads give what the next crash leaves.
    pub(crate) fn settle(&mut self)
        ensures { self.new ≡ settled self.old }
    {
        self.base = Snapshot::of(&self.bytes);
        self.writes.clear();
    }

    /// The bytes of the image of this number.
    pub(crate) fn image(&self, alloc: Global, n: u8) -> Result<Vec<u8>, AllocError>
        ensures { IfOk result (λ image. image.items ≡ image_of n self.now) }
    {
        let mut bytes = self.bytes.to_vec(alloc)?;
        unwind(&mut bytes, self.writes.as_slice(), &self.base);
        leave_writes(alloc, &mut bytes, self.writes.as_slice(), n)?;
        Ok(bytes)
    }
}

// Writes the first of the bytes of a piece, and adds the whole of it to the pending writes.
fn add_write(
    alloc: Global,
    bytes: &mut Vec<u8>,
    writes: &mut Vec<Write>,
    at: usize,
    piece: &[u8],
    taken: usize,
) -> Result<(), AllocError>
    requires place { at ≤ vec_len bytes.old }
    requires taken { taken ≤ length piece.now }
    ensures bytes { OnOk result (bytes.new.items
        ≡ written_at at (take taken piece.now) bytes.old.items) }
    ensures writes { OnOk result (writes.new.items
        ≡ writes.old.items ++ keeping at piece.now taken bytes.old.items ∷ []) }
    ensures same_bytes { OnErr result (bytes.new.items ≡ bytes.old.items) }
    ensures same_writes { OnErr result (writes.new.items ≡ writes.old.items) }
{
    let end = bytes.len().min(at + taken);
    let over = bytes[at..end].to_vec(alloc)?;
    let intended = piece.to_vec(alloc)?;
    writes.push(Write {
        at,
        bytes: intended,
        taken,
        over,
    })?;
    if write_bytes(bytes, at, &piece[..taken]).is_err() {
        writes.truncate(writes.len() - 1);
        return Err(AllocError);
    }
    Ok(())
}

// Puts back what a write wrote over.
fn undo(bytes: &mut Vec<u8>, write: &Write)
    requires place { write.now.at + write.now.taken ≤ vec_len bytes.old }
    requires short { length write.now.over ≤ write.now.taken }
    requires end { length write.now.over < write.now.taken
        → vec_len bytes.old ≡ write.now.at + write.now.taken }
    ensures { bytes.new.items ≡ undone write.now bytes.old.items }
{
    let at = write.at;
    let end = at + write.over.len();
    if write.over.len() < write.taken {
        bytes.truncate(end);
    }
    bytes[at..end].copy_from_slice(&write.over);
}

// Undoes all writes, from the last to the first, which leads back to the bytes of the last sync.
fn unwind(bytes: &mut Vec<u8>, writes: &[Write], base: &Snapshot<Vec<u8>>)
    requires { IsLaid base.now.value.items writes.now bytes.old.items }
    ensures undone { bytes.new.items ≡ unwound writes.now bytes.old.items }
    ensures base { bytes.new.items ≡ base.now.value.items }
{
    let count = writes.len();
    for past in 0..count {
        undo(bytes, &writes[count - 1 - past]);
    }
}
