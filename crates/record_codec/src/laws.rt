ghost use Rattle.std.specs.Prelude.{◌≡◌, ◌≤◌, ℕ, List, length, IsTrue, Some};
ghost use Rattle.wire_fields.specs.Reading.{AreBytes};
ghost use Rattle.record_codec.specs.declared.group.Op.{Op};
ghost use Rattle.record_codec.specs.Records.{KeptGroup, KeptOpening, KeptManifest, messages_of};
ghost use Rattle.record_codec.specs.Spelling.{spelled_op, spelled_group, spelled_opening, spelled_manifest};
ghost use Rattle.record_codec.specs.HasSpelling.{group_has_spelling, opening_has_spelling, manifest_has_spelling};
ghost use Rattle.record_codec.specs.Reading.{group_in, opening_in, manifest_in};
ghost use Rattle.record_codec.specs.Spells.{SpellsGroup, SpellsOpening, SpellsManifest};
ghost use Rattle.record_codec.specs.Sizes.{op_size, stores_size, group_size, opening_size, manifest_size};
ghost use Rattle.std.specs.List.{sum_by};
ghost use Rattle.shard_model.specs.Capacity.{store_size};
ghost use Rattle.shard_model.specs.SweepOrder.{counted_from};
ghost use Rattle.record_codec.specs.OffsetLaws.{offsets_in};
ghost use Rattle.record_codec.specs.Bounds.{generation_length, IsShortOpening, IsWithinGeneration};

/// A law: what is spelled is read again.
pub fn spelled_is_read()
    ensures group { (group : KeptGroup) → IsTrue (group_has_spelling group) →
        group_in (spelled_group group) ≡ Some group }
    ensures opening { (opening : KeptOpening) → IsTrue (opening_has_spelling opening) →
        opening_in (spelled_opening opening) ≡ Some opening }
    ensures manifest { (manifest : KeptManifest) → IsTrue (manifest_has_spelling manifest) →
        manifest_in (spelled_manifest manifest) ≡ Some manifest }
{}

/// A law: what is read was spelled.
pub fn read_was_spelled()
    ensures group { (bytes : List ℕ) (group : KeptGroup) → AreBytes bytes →
        group_in bytes ≡ Some group → SpellsGroup bytes group }
    ensures opening { (bytes : List ℕ) (opening : KeptOpening) → AreBytes bytes →
        opening_in bytes ≡ Some opening → SpellsOpening bytes opening }
    ensures manifest { (bytes : List ℕ) (manifest : KeptManifest) → AreBytes bytes →
        manifest_in bytes ≡ Some manifest → SpellsManifest bytes manifest }
{}

/// A law: no two records of a kind have one spelling.
pub fn spellings_differ()
    ensures group { (a b : KeptGroup) → IsTrue (group_has_spelling a) →
        IsTrue (group_has_spelling b) → spelled_group a ≡ spelled_group b → a ≡ b }
    ensures opening { (a b : KeptOpening) → IsTrue (opening_has_spelling a) →
        IsTrue (opening_has_spelling b) → spelled_opening a ≡ spelled_opening b → a ≡ b }
    ensures manifest { (a b : KeptManifest) → IsTrue (manifest_has_spelling a) →
        IsTrue (manifest_has_spelling b) → spelled_manifest a ≡ spelled_manifest b → a ≡ b }
{}

/// A law: the messages of a group that has a spelling have consecutive offsets from its first on.
pub fn offsets_are_consecutive()
    ensures { (group : KeptGroup) → IsTrue (group_has_spelling group) →
        offsets_in (messages_of group.ops)
        ≡ counted_from group.first (length (messages_of group.ops)) }
{}

/// A law: the length of a spelling is a number computed from what is spelled. That of a Store is what a generation's limit
/// counts.
pub fn length_is_a_number()
    ensures op { (op : Op) → length (spelled_op op) ≡ op_size op }
    ensures stores { (ops : List Op) → stores_size ops ≡ sum_by store_size (messages_of ops) }
    ensures group { (group : KeptGroup) → length (spelled_group group) ≡ group_size group }
    ensures opening { (opening : KeptOpening) →
        length (spelled_opening opening) ≡ opening_size opening }
    ensures manifest { (manifest : KeptManifest) →
        length (spelled_manifest manifest) ≡ manifest_size manifest }
{}

/// A law: an opening within the limits takes at most 1,097,747 bytes, and a manifest 277. The records of a generation within
/// its limits, each with its gate and length, take at most 28,905,496 bytes, fewer than a slot disk has.
pub fn records_are_short()
    ensures opening { (opening : KeptOpening) → IsShortOpening opening →
        length (spelled_opening opening) ≤ 1097747 }
    ensures manifest { (manifest : KeptManifest) → IsTrue (manifest_has_spelling manifest) →
        length (spelled_manifest manifest) ≤ 277 }
    ensures generation { (opening : KeptOpening) (groups : List KeptGroup) →
        IsWithinGeneration opening groups → generation_length opening groups ≤ 28905496 }
{}
