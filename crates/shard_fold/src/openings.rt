// Where the generations of a shard begin.
ghost use Rattle.std.specs.Prelude.{◌≡◌, ◌+◌, ◌≤◌, ◌++◌, ◌∷◌, [], length, true, None, Some, Ok, IfOk, OnOk, OnErr};
ghost use Rattle.std.specs.List.{IsDistinct};
ghost use Rattle.shard_model.specs.ShardList.{newest};
ghost use Rattle.shard_index.specs.Absorbing.{sealed_last};
ghost use Rattle.shard_index.specs.KeptIndex.{list_of};
ghost use Rattle.shard_model.specs.Storing.{same_triple};
ghost use Rattle.record_codec.specs.Reading.{opening_in};
ghost use Rattle.shard_fold.specs.Fold.{are_same, first_opening, is_opening_of, opened, opened_behind, opens, opens_behind, unsealed};
ghost use Rattle.shard_fold.specs.Giving.{Gives};
ghost use Rattle.shard_fold.specs.Potential.{potential};

use crate::limits::{MOST_AWAITED, MOST_SLOT};
use crate::unread::{Unread, Where};
use record_codec::{CodecRefused, Opening, read_opening, write_opening};
use shard_index::{Awaited, Index, IndexOp, are_distinct};
use std::alloc::{AllocError, Global};
use topic_name::{Descriptor, MOST_MESSAGES};

/// The opening of a new shard's first generation, at which nothing is awaited.
pub fn first_opening(alloc: Global) -> Result<Vec<u8>, AllocError>
    ensures bytes { IfOk result (λ bytes. bytes.items ≡ first_opening) }
    ensures long { IfOk result (λ bytes. length bytes.items ≡ 19) }
{
    let opening = Opening {
        generation: 0,
        first: 0,
        awaited: Vec::new(alloc),
    };
    let mut bytes = Vec::new(alloc);
    write_opening(&opening, &mut bytes)?;
    Ok(bytes)
}

// A generation as it stands before it is sealed.
fn unsealed(cut: Descriptor) -> Descriptor
    ensures { result ≡ unsealed cut }
{
    Descriptor {
        sealed: None,
        ..cut
    }
}

fn is_opening_of(opening: &Opening, cut: Descriptor) -> bool
    ensures { result ≡ is_opening_of cut opening.now }
{
    opening.generation == cut.number && opening.first == cut.first
}

// Whether the oldest generation may begin so.
fn opens(alloc: Global, opening: &Opening, cut: Descriptor) -> Result<bool, AllocError>
    ensures value { IfOk result (λ fits. fits ≡ opens cut opening.now) }
    ensures distinct { result ≡ Ok true → IsDistinct same_triple opening.now.awaited }
{
    if !is_opening_of(opening, cut) || opening.awaited.len() > MOST_AWAITED {
        return Ok(false);
    }
    let distinct = are_distinct(alloc, &opening.awaited)?;
    Ok(distinct)
}

/// The list of a shard at the opening of its oldest generation.
pub fn open(alloc: Global, bytes: &[u8], cut: Descriptor) -> Result<Index, Unread>
    ensures exact { Gives list_of result (opened cut.slot cut (opening_in bytes.now)) }
    ensures cuts { IfOk result (λ index. index.cuts ≡ unsealed cut ∷ []) }
    ensures few { IfOk result (λ index. length index.awaited ≤ MOST_AWAITED) }
    // What the slot can still take: the generation takes no more messages than a configuration may say.
    ensures short { cut.messages ≤ MOST_MESSAGES → IfOk result (λ index.
        5 + length bytes.now + potential (list_of index) ≤ MOST_SLOT) }
{
    let opening = match read_opening(alloc, bytes) {
        Ok(opening) => opening,
        Err(CodecRefused::Bad) => return Err(Unread::Damaged(Where::Slot(cut.slot), 0)),
        Err(CodecRefused::Memory) => return Err(Unread::Memory),
    };
    let opens = opens(alloc, &opening, cut)?;
    if !opens {
        return Err(Unread::Damaged(Where::Slot(cut.slot), 0));
    }
    let index = Index::new(alloc, unsealed(cut), &opening.awaited)?;
    Ok(index)
}

// Whether identifiers are those that an index awaits, in this order.
fn are_same(awaited: &[Awaited], index: &Index) -> bool
    ensures { result ≡ are_same awaited.now index.now.awaited }
{
    if awaited.len() != index.awaited_count() {
        return false;
    }
    for (place, one) in awaited.iter().enumerate() {
        let Some(other) = index.awaited(place) else {
            return false;
        };
        if one != other {
            return false;
        }
    }
    true
}

// Whether a generation may begin so behind what an index has.
fn opens_behind(opening: &Opening, cut: Descriptor, index: &Index) -> bool
    ensures { result ≡ opens_behind (list_of index.now) cut opening.now }
{
    is_opening_of(opening, cut)
        && opening.first == index.next_offset()
        && are_same(&opening.awaited, index)
}

/// Seals the newest generation of a shard's list at a moment, and begins the next one by its opening. Where it answers `Err`, the
/// list stays as it was.
pub fn open_behind(
    alloc: Global,
    bytes: &[u8],
    sealed: u64,
    cut: Descriptor,
    index: &mut Index,
) -> Result<(), Unread>
    requires { cut.number ≡ (newest (list_of index.old)).number + 1 }
    ensures exact { Gives (λ _. list_of index.new) result (opened_behind cut.slot
        (list_of index.old) (Some sealed) cut (opening_in bytes.now)) }
    ensures cuts { OnOk result (index.new.cuts
        ≡ sealed_last sealed index.old.cuts ++ unsealed cut ∷ []) }
    ensures awaited { index.new.awaited ≡ index.old.awaited }
    ensures stays { OnErr result (index.new ≡ index.old) }
    // What the slot can still take: as many identifiers are awaited as may be, and the generation takes no more messages than a
    // configuration may say.
    ensures short { length index.old.awaited ≤ MOST_AWAITED → cut.messages ≤ MOST_MESSAGES
        → OnOk result (5 + length bytes.now + potential (list_of index.new) ≤ MOST_SLOT) }
{
    let opening = match read_opening(alloc, bytes) {
        Ok(opening) => opening,
        Err(CodecRefused::Bad) => return Err(Unread::Damaged(Where::Slot(cut.slot), 0)),
        Err(CodecRefused::Memory) => return Err(Unread::Memory),
    };
    if !opens_behind(&opening, cut, index) {
        return Err(Unread::Damaged(Where::Slot(cut.slot), 0));
    }
    let rotate = IndexOp::Rotate {
        now: sealed,
        cut: unsealed(cut),
    };
    index.absorb(&rotate)?;
    Ok(())
}
