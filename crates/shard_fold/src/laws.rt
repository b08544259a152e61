// Laws of what records hold. Each is a call that does nothing.
ghost use Rattle.std.specs.Prelude.{◌≡◌, ◌+◌, ◌<◌, ◌≤◌, ◌++◌, ◌∷◌, ℕ, [], All, IsTrue, List, length, slice_index_or, slice_set, true};
ghost use Rattle.topic_name.specs.declared.descriptor.Descriptor.{Descriptor};
ghost use Rattle.topic_name.specs.PlainConfig.{plain_config};
ghost use Rattle.topic_model.specs.Profile.{whole};
ghost use Rattle.shard_model.specs.ShardList.{ShardList, next_of, opening_list};
ghost use Rattle.shard_model.specs.Lists.{IsList};
ghost use Rattle.shard_index.specs.Absorbing.{absorbed_all, all_stand};
ghost use Rattle.shard_index.specs.Sound.{newest_bytes};
ghost use Rattle.record_codec.specs.Records.{KeptGroup, index_ops};
ghost use Rattle.record_codec.specs.Spelling.{spelled_group};
ghost use Rattle.record_codec.specs.HasSpelling.{group_has_spelling};
ghost use Rattle.record_codec.specs.Reading.{group_in};
ghost use Rattle.gated_log.specs.PlainLog.{end_of};
ghost use Rattle.pair_log.specs.Mounted.{or_first};
ghost use Rattle.shard_fold.specs.declared.asked.Asked.{Asked as Question};
ghost use Rattle.shard_fold.specs.Fold.{Holds, cuts_told, first_cut, first_manifest, first_opening, folded, is_new, with_group};
ghost use Rattle.shard_fold.specs.FoldLaws.{newest_slot};
ghost use Rattle.shard_fold.specs.Giving.{IsAsked};
ghost use Rattle.shard_fold.specs.OrderLaws.{IsKept};
ghost use Rattle.shard_fold.specs.Potential.{potential};

/// A law: a record that is written behind the others of the newest generation's slot is a group that is taken, or is damaged.
pub fn a_record_behind()
    ensures { (asked : Question) (manifest : List (List ℕ)) (slots : List (List (List ℕ)))
        (list : ShardList) (cuts : List Descriptor) (k : ℕ) (payload : List ℕ) →
        folded asked manifest slots ≡ Holds list →
        cuts_told asked (or_first (first_manifest asked) manifest) ≡ Holds cuts →
        newest_slot cuts ≡ k → k < length slots → 0 < length (slice_index_or slots k []) →
        folded asked manifest (slice_set slots k (slice_index_or slots k [] ++ payload ∷ []))
        ≡ with_group k (end_of (slice_index_or slots k [])) list (group_in payload) }
{}

/// A law: of a new shard the records hold the same, whether its first slot has the first opening, or none.
pub fn a_new_shard()
    ensures { (asked : Question) (manifest : List (List ℕ)) (slots : List (List (List ℕ)))
        (cuts : List Descriptor) →
        cuts_told asked (or_first (first_manifest asked) manifest) ≡ Holds cuts →
        IsTrue (is_new cuts) → 0 < length slots → slice_index_or slots 0 [] ≡ [] →
        folded asked manifest (slice_set slots 0 (first_opening ∷ []))
        ≡ folded asked manifest slots }
{}

/// A law: the records hold the same, whether the manifest's log has the first manifest, or none; and that one tells the first
/// generation.
pub fn a_first_manifest()
    ensures same { (asked : Question) (manifest : List (List ℕ)) (slots : List (List (List ℕ))) →
        folded asked (or_first (first_manifest asked) manifest) slots
        ≡ folded asked manifest slots }
    ensures told { (asked : Question) → IsAsked asked →
        cuts_told asked (or_first (first_manifest asked) []) ≡ Holds (first_cut asked ∷ []) }
{}

/// A law: new disks hold the list of a shard that begins.
pub fn new_disks()
    ensures { (asked : Question) (slots : List (List (List ℕ))) → IsAsked asked →
        All (λ (records : List (List ℕ)). records ≡ []) slots →
        folded asked [] slots ≡ Holds (opening_list (plain_config asked.config)) }
{}

/// A law: a group that has a spelling, begins at the next offset, whose operations can all stand, and after which not too many
/// identifiers are awaited, is taken as it was written.
pub fn a_group_is_taken()
    ensures { (slot place : ℕ) (list : ShardList) (g : KeptGroup) →
        IsTrue (group_has_spelling g) → g.first ≡ next_of list →
        all_stand list (index_ops g.ops) ≡ true →
        length (absorbed_all (index_ops g.ops) list).awaited ≤ whole.awaited →
        with_group slot place list (group_in (spelled_group g))
        ≡ Holds (absorbed_all (index_ops g.ops) list) }
{}

/// A law: what a group takes, with its gate and length, is taken from what its generation can still take.
pub fn a_group_takes_its_room()
    ensures { (list : ShardList) (g : KeptGroup) → IsList list →
        newest_bytes list ≤ whole.generation_bytes → IsTrue (group_has_spelling g) →
        all_stand list (index_ops g.ops) ≡ true →
        5 + length (spelled_group g) + potential (absorbed_all (index_ops g.ops) list)
        ≤ potential list }
{}

/// A law: what records hold is a list in order, not too many identifiers are awaited, and none twice.
pub fn folded_in_order()
    ensures { (asked : Question) (manifest : List (List ℕ)) (slots : List (List (List ℕ)))
        (list : ShardList) → folded asked manifest slots ≡ Holds list → IsKept list }
{}
