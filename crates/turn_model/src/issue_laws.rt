ghost use Rattle.std.specs.Prelude.{◌≡◌, true, List};
ghost use Rattle.topic_model.specs.Profile.{Profile};
ghost use Rattle.topic_model.specs.StoredMessage.{StoredMessage};
ghost use Rattle.shard_model.specs.Lists.{IsList};
ghost use Rattle.session_model.specs.Change.{Issues};
ghost use Rattle.turn_model.specs.MayIssue.{Issuing, wanted_by, Ascend, MayIssue, may_issue_as, messages_of};

/// A law: over a shard's list that is in order, whose wanted messages so stand with rising offsets, the test of what a
/// pump may issue is the relation: what passes is a list of entries that may be issued for some messages, and entries
/// that may be issued for some messages pass. These messages are those that the entries name by their offsets.
pub fn the_test_is_the_relation()
    ensures ascend { (i : Issuing) → IsList i.list → Ascend (wanted_by i) }
    ensures passes { (profile : Profile) (i : Issuing) (b : Issues) → IsList i.list →
        may_issue_as profile i b ≡ true → (ws : List StoredMessage) × MayIssue profile i b ws }
    ensures if_related { (profile : Profile) (i : Issuing) (b : Issues)
        (ws : List StoredMessage) → IsList i.list →
        MayIssue profile i b ws → may_issue_as profile i b ≡ true }
    ensures messages { (profile : Profile) (i : Issuing) (b : Issues)
        (ws : List StoredMessage) → IsList i.list →
        MayIssue profile i b ws → messages_of (wanted_by i) b.entries ≡ ws }
{}
