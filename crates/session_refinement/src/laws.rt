ghost use Rattle.std.specs.Prelude.{◌≡◌, ◌++◌, Bool, List, ℕ, [], Some, true};
ghost use Rattle.topic_model.specs.Profile.{Profile};
ghost use Rattle.topic_model.specs.StoredMessage.{StoredMessage};
ghost use Rattle.shard_model.specs.ShardList.{ShardList};
ghost use Rattle.topic_model.specs.Places.{HasPlace};
ghost use Rattle.session_model.specs.declared.entry.Entry.{Entry};
ghost use Rattle.session_model.specs.PlainSession.{PlainSession, Sessions, begun_session, session_of};
ghost use Rattle.session_model.specs.Acting.{changed_session, act_one};
ghost use Rattle.session_model.specs.FitsSession.{suits, finds, change_fits, is_within, are_within};
ghost use Rattle.session_state.specs.declared.change.Change.{Change};
ghost use Rattle.session_state.specs.declared.change.Effect.{Effect};
ghost use Rattle.session_state.specs.declared.change.Effect.TheVariants.{Issued};
ghost use Rattle.session_state.specs.declared.change.Issued.{Issued as Issuing};
ghost use Rattle.session_state.specs.KeptSession as kept;
ghost use Rattle.session_state.specs.KeptSession.{KeptSession, KeptSessions, begun_kept};
ghost use Rattle.session_state.specs.KeptActing.{kept_changed, kept_acted};
ghost use Rattle.session_state.specs.KeptFits.{kept_suits, kept_within, kept_are_within, kept_fits};
ghost use Rattle.turn_model.specs.Delivery.{Reader, has_expired};
ghost use Rattle.turn_model.specs.Batch.{entries_from};
ghost use Rattle.turn_model.specs.PlainConnection.{PlainConnection};
ghost use Rattle.turn_model.specs.Pumping.{AreReady};
ghost use Rattle.session_refinement.specs.ReadAgain.{again_from, kept_limit};
ghost use Rattle.session_refinement.specs.PlainChange.{plain_effect, plain_change};
ghost use Rattle.session_refinement.specs.StandFor.{AreReadAgain, Group, Keeps, SessionsKeep, SessionsStandFor};
ghost use Rattle.session_refinement.specs.StandFor.{StandsFor};
ghost use Rattle.session_refinement.specs.Issuing.{AreIssuedAs, AreLists, AreOver, HaveGrown, IsIssuedAs, IsOver};
ghost use Rattle.session_refinement.specs.Issuing.{IsReadyFor, is_no_batch, new_groups};

/// A law: a batch is read again as it was issued. Where its messages had expired alike, they are issued as they are
/// read again with the batch's limit, which is then 0, and else the client's.
pub fn batches_are_read_again_as_issued()
    ensures { (now : ℕ) (r : Reader) (expired : Bool) (next1 next2 : ℕ) (ms : List StoredMessage) →
        ((m : StoredMessage) → HasPlace ms m → has_expired now m ≡ expired) →
        entries_from now r next1 next2 ms
        ≡ again_from (record r { limit = kept_limit expired r.limit }) next1 next2 ms }
{}

/// A law: a session that begins stands for a plain one that begins, over whatever lists, and keeps what it needs of it.
pub fn a_session_begins_as_a_plain_one()
    ensures keeps { (client : List ℕ) (incarnation expiry window : ℕ) →
        Keeps (begun_kept client incarnation expiry window)
        (begun_session client incarnation expiry window) [] }
    ensures stands { (profile : Profile) (lists : List ShardList) (client : List ℕ)
        (incarnation expiry window : ℕ) →
        StandsFor profile lists (begun_kept client incarnation expiry window)
        (begun_session client incarnation expiry window) }
{}

/// A law: a session that keeps what it needs of a plain one goes on to do so through each change that suits the plain
/// one, a batch with the entries that it is issued as: its groups are then one more. What is kept after the change is
/// what the plain session keeps, so what went is never needed again. The same holds of the sessions of a worker.
pub fn changes_are_kept()
    ensures changed { (k : KeptSession) (m : PlainSession) (groups : List Group)
        (entries : List Entry) (effect : Effect) → Keeps k m groups →
        suits m (plain_effect entries effect) ≡ true → IsIssuedAs m effect entries →
        Keeps (kept_changed effect k) (changed_session (plain_effect entries effect) m)
        (groups ++ new_groups effect entries) }
    ensures sessions { (kept : KeptSessions) (plain : Sessions) (entries : List Entry)
        (c : Change) → SessionsKeep kept plain →
        finds plain (plain_effect entries c.effect) (session_of c.client plain) ≡ true →
        AreIssuedAs plain c entries →
        SessionsKeep (kept_acted c kept) (act_one plain (plain_change entries c)) }
{}

/// A law: a kept session that stands for a plain one over lists in order goes on to do so through each change that
/// suits the plain one, where a new subscription starts at the lists' ends and a batch may be issued over them. The
/// same holds of the sessions of a worker, which then keep what they need.
pub fn changes_go_on_to_stand()
    ensures changed { (profile : Profile) (lists : List ShardList) (k : KeptSession)
        (m : PlainSession) (entries : List Entry) (effect : Effect) →
        AreLists lists → StandsFor profile lists k m →
        suits m (plain_effect entries effect) ≡ true → IsOver profile lists m effect entries →
        StandsFor profile lists (kept_changed effect k)
        (changed_session (plain_effect entries effect) m) }
    ensures sessions { (profile : Profile) (lists : List ShardList) (kept : KeptSessions)
        (plain : Sessions) (entries : List Entry) (c : Change) →
        AreLists lists → SessionsStandFor profile lists kept plain →
        finds plain (plain_effect entries c.effect) (session_of c.client plain) ≡ true →
        AreOver profile lists plain c entries →
        SessionsStandFor profile lists (kept_acted c kept) (act_one plain (plain_change entries c)) }
    ensures keep { (profile : Profile) (lists : List ShardList) (kept : KeptSessions)
        (plain : Sessions) → SessionsStandFor profile lists kept plain →
        SessionsKeep kept plain }
{}

/// A law: as the lists grow, a kept session goes on to stand for a plain one, where its batches are still read again as
/// they were issued: its sweeps stay in order and count what was issued, and no position passes an end.
pub fn standing_stays_as_lists_grow()
    ensures { (profile : Profile) (lists later : List ShardList) (k : KeptSession)
        (m : PlainSession) → HaveGrown lists later → (h : StandsFor profile lists k m) →
        AreReadAgain profile later m h.groups → StandsFor profile later k m }
{}

/// A law: where a kept session stands for a plain one over lists in order, each pair of a live subscription and a shard
/// is ready for a pump of whatever connection, so that what is pumped may be issued.
pub fn what_stands_is_ready_to_be_pumped()
    ensures { (profile : Profile) (lists : List ShardList) (k : KeptSession) (m : PlainSession)
        (connection : PlainConnection) (now : ℕ) → AreLists lists →
        StandsFor profile lists k m → AreReady profile now m connection lists }
{}

/// A law: kept sessions tell which changes fit the plain ones. A change but a batch suits, and fits, the one exactly
/// where it does the other, and so do the limits. A batch that suits, or fits, the plain one does so with the kept one,
/// where the worker is ready for it.
pub fn kept_sessions_tell_what_fits()
    ensures suits { (k : KeptSession) (m : PlainSession) (groups : List Group)
        (entries : List Entry) (effect : Effect) → is_no_batch effect ≡ true → Keeps k m groups →
        kept_suits k effect ≡ suits m (plain_effect entries effect) }
    ensures within { (profile : Profile) (k : KeptSession) (m : PlainSession)
        (groups : List Group) → Keeps k m groups → kept_within profile k ≡ is_within profile m }
    ensures are_within { (profile : Profile) (kept : KeptSessions) (plain : Sessions) →
        SessionsKeep kept plain → kept_are_within profile kept ≡ are_within profile plain }
    ensures fits { (profile : Profile) (kept : KeptSessions) (plain : Sessions)
        (entries : List Entry) (c : Change) → is_no_batch c.effect ≡ true →
        SessionsKeep kept plain →
        kept_fits profile kept c ≡ change_fits profile plain (plain_change entries c) }
    ensures batch { (profile : Profile) (sessions : KeptSessions) (plain : Sessions)
        (entries : List Entry) (client : List ℕ) (i : Issuing) → SessionsKeep sessions plain →
        ((k : KeptSession) (m : PlainSession) → kept.session_of client sessions ≡ Some k →
        session_of client plain ≡ Some m → IsReadyFor k m i entries) →
        change_fits profile plain (plain_change entries (record { client = client; effect = Issued i }))
        ≡ true →
        kept_fits profile sessions (record { client = client; effect = Issued i }) ≡ true }
{}
