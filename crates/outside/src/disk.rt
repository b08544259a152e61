// Bytes that survive a crash.
ghost use Rattle.std.specs.Prelude.{◌≡◌, ◌≤◌, ◌+◌, ℕ, max, IsTrue, List, length, take, drop, OnOk, OnErr};
ghost use Rattle.outside.specs.DiskModel.{AddsNone, DiskState, Follows, Holds, IsArmed, IsCalled, Only, Torn, WritesNone};

use crate::Failed;
use std::alloc::AllocError;

/// Bytes that survive a crash. Between two syncs the range of each write, and what lies past the old end, may hold any
/// bytes after a crash, and the size may be any between the old one and the new one; after a sync that succeeds a crash
/// leaves what a read gives. What clauses say of bytes holds of a disk that tells them; one that doesn't tells no images.
pub trait Disk {
    /// What proofs know of it.
    ghost state: { Self → DiskState };

    /// What it is to be told that the call of this number from now on, counted from 1, is to fail.
    ghost arms_at: { ℕ → Self → Self → Type 0 };

    /// How many bytes there are.
    fn size(&self) -> u64
        ensures { result ≡ (state self.now).size };

    /// Fills a slice with the bytes from a place on.
    fn read(&mut self, at: u64, into: &mut [u8]) -> Result<(), Failed>
        requires { at + length into.old ≤ (state self.old).size }
        ensures bytes { OnOk result (IsTrue (state self.old).tells
            → into.new ≡ take (length into.old) (drop at (state self.old).seen)) }
        ensures called { IsCalled (state self.old) (state self.new) result }
        ensures writes_none { WritesNone (state self.old) (state self.new) }
        ensures loses_none { AddsNone (state self.new).may_leave (state self.old).may_leave };

    /// Writes over what is there, and past the end. `Failed` may leave any bytes in the range.
    fn write_at(&mut self, at: u64, bytes: &[u8]) -> Result<(), Failed>
        requires { at ≤ (state self.old).size }
        ensures written { OnOk result (IsTrue (state self.old).tells
            → Holds (state self.old).seen at bytes.now (state self.new).seen) }
        ensures torn { OnErr result (IsTrue (state self.old).tells
            → Torn at (length bytes.now) (state self.old).seen (state self.new).seen) }
        ensures called { IsCalled (state self.old) (state self.new) result }
        ensures size { OnOk result
            ((state self.new).size ≡ max (state self.old).size (at + length bytes.now)) }
        ensures no_shorter { (state self.old).size ≤ (state self.new).size }
        ensures no_longer { (state self.new).size
            ≤ max (state self.old).size (at + length bytes.now) }
        ensures images { Follows (Torn at (length bytes.now)) (state self.old).may_leave
            (state self.new).may_leave };

    /// After it, a crash leaves what a read gives. `Failed` adds no image.
    fn sync(&mut self) -> Result<(), Failed>
        ensures durable { OnOk result (Only (state self.old).seen (state self.new).may_leave) }
        ensures called { IsCalled (state self.old) (state self.new) result }
        ensures writes_none { WritesNone (state self.old) (state self.new) };

    /// Lets the call of this number from now on, counted from 1, fail once, where the disk is made for that. It is no
    /// call of the device itself.
    fn arm(&mut self, call: u32) -> Result<(), AllocError>
        ensures armed { OnOk result (arms_at call self.old self.new) }
        ensures refused { OnErr result (self.new ≡ self.old) }
        ensures nothing_else { IsArmed (state self.old) (state self.new) };

    /// Its size is that of its bytes.
    ghost sized: { (disk : Self) → IsTrue (state disk).tells
        → (state disk).size ≡ length (state disk).seen };

    /// A disk as it reads is one of its images.
    ghost reads_as_image: { (disk : Self) → IsTrue (state disk).tells
        → (state disk).may_leave (state disk).seen };

    /// This moment is one of those since an earlier one.
    ghost counts_now: { (disk : Self) (t : ℕ) (image : List ℕ) → t ≤ (state disk).calls
        → (state disk).may_leave image → (state disk).left_since t image };

    /// Since this moment there is no other.
    ghost only_now: { (disk : Self) (image : List ℕ)
        → (state disk).left_since (state disk).calls image → (state disk).may_leave image };
}

/// Disks by number, as they are handed to a program and handed back.
#[derive(Drop)]
pub struct Disks<D> {
    pub list: Vec<D>,
}
