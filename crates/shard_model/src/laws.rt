ghost use Rattle.std.specs.Prelude.{◌≡◌, ◌≤◌, ◌<◌, ◌++◌, ◌∷◌, Bool, true, false, List, ℕ, [], Some, None, map, take};
ghost use Rattle.std.specs.Prelude.{slice_get};
ghost use Rattle.topic_model.specs.StoredMessage.{StoredMessage};
ghost use Rattle.shard_model.specs.LearnedPath.{Path, Tokens, patterns_of, patterns_after, learned_path, path_from};
ghost use Rattle.shard_model.specs.LearnedPath.{number_of};
ghost use Rattle.shard_model.specs.Streams.{HeldGeneration, held_generations, in_stream, streams_from, topics_of};
ghost use Rattle.shard_model.specs.LearnedPath.{HasNumber};
ghost use Rattle.topic_model.specs.Profile.{Config, Profile};
ghost use Rattle.shard_model.specs.ShardList.{Cut, ShardList, floor_of, next_of, message_at, newest, oldest_of};
ghost use Rattle.shard_model.specs.ShardList.{opening_list};
ghost use Rattle.shard_model.specs.Storing.{Op, store};
ghost use Rattle.topic_model.specs.Places.{HasPlace};
ghost use Rattle.shard_model.specs.Growing.{HasGrown};
ghost use Rattle.shard_model.specs.Capacity.{learns_few_or_within, learns_within, rotated, dropped};
ghost use Rattle.shard_model.specs.Lists.{IsList};
ghost use Rattle.shard_model.specs.Growing.{Continues};
ghost use Rattle.shard_model.specs.Wanted.{wanted};
ghost use Rattle.shard_model.specs.NextRun.{IsNextRun};
ghost use Rattle.shard_model.specs.SweepOrder.{Run, next_run, is_in_order, is_issued_by};
ghost use Rattle.shard_model.specs.declared.sweep.Sweep.{Sweep};
ghost use Rattle.shard_model.specs.ShardMoves.{Shard, ShardMove, Nothing, Show, pends_nothing, if_drop, opening_shard};
ghost use Rattle.shard_model.specs.ShardMoves.{shard_step, shard_run, crashed_shard};
ghost use Rattle.shard_model.specs.Shards.{IsShard, is_show};

/// A law: the patterns that are carried along from topic to topic are the distinct paths of the whole list, and give
/// each later topic the same path.
pub fn patterns_are_carried()
    ensures patterns { (top below : ℕ) (topics : List Tokens) →
        patterns_of top below topics ≡ patterns_after top below [] topics }
    ensures path { (top below : ℕ) (topics : List Tokens) (topic : Tokens) →
        learned_path top below topics topic
        ≡ path_from top below (patterns_after top below [] topics) [] topic }
{}

/// A law: what was learned and streamed stays as the list grows: more topics are learned over the patterns of those
/// before, more messages are streamed behind those before, and the number of a pattern stays.
pub fn streams_are_patterns()
    ensures learned { (top below : ℕ) (patterns : List Path) (xs ys : List Tokens) →
        patterns_after top below patterns (xs ++ ys)
        ≡ patterns_after top below (patterns_after top below patterns xs) ys }
    ensures streams { (top below : ℕ) (patterns : List Path) (ms more : List StoredMessage) →
        streams_from top below patterns (ms ++ more) ≡ streams_from top below patterns ms
        ++ streams_from top below (patterns_after top below patterns (topics_of ms)) more }
    ensures numbers { (top below : ℕ) (patterns : List Path) (topics : List Tokens)
        (path : Path) (n : ℕ) → number_of path patterns ≡ Some n →
        number_of path (patterns_after top below patterns topics) ≡ Some n }
{}

/// A law: the stream of each message is the number of its topic's learned path among the patterns of all topics, each
/// topic of a list has such a number, and at its number stands the path.
pub fn a_stream_is_a_number()
    ensures streams { (top below : ℕ) (ms : List StoredMessage) →
        streams_from top below [] ms ≡ map (λ (m : StoredMessage). in_stream m
        (learned_path top below (topics_of ms) m.topic) (patterns_of top below (topics_of ms))) ms }
    ensures each { (top below : ℕ) (before : List Tokens) (topic : Tokens) (after : List Tokens) →
        HasNumber (learned_path top below (before ++ topic ∷ after) topic)
        (patterns_of top below (before ++ topic ∷ after)) }
    ensures place { (path : Path) (patterns : List Path) (n : ℕ) →
        number_of path patterns ≡ Some n → slice_get patterns n ≡ Some path }
{}

/// A law: a topic keeps the path that it was placed by, whatever topics come later.
pub fn a_placed_topic_keeps_its_path()
    ensures { (top below : ℕ) (before : List Tokens) (topic : Tokens) (after : List Tokens) →
        learned_path top below (before ++ topic ∷ after) topic
        ≡ learned_path top below before topic }
{}

/// A law: what is computed without learning is what learning gives: of few messages with few levels a generation has
/// streams and nodes enough, whatever it learns.
pub fn few_messages_fit()
    ensures { (profile : Profile) (cut : Cut) (ms : List StoredMessage) →
        learns_few_or_within profile cut ms ≡ learns_within profile cut ms }
{}

/// A law: a shard's list begins in order; storing a group leaves it in order, and it has grown.
pub fn storing_grows()
    ensures opening { (config : Config) → IsList (opening_list config) }
    ensures list { (list : ShardList) (ops : List Op) (now : ℕ) →
        IsList list → IsList (store list ops now) }
    ensures grown { (list : ShardList) (ops : List Op) (now : ℕ) →
        IsList list → HasGrown list (store list ops now) }
{}

/// A law: what a list in order has. Each generation's number lies between those of the oldest and the newest and is its
/// own, and it begins between the floor and the next offset; the newest alone isn't sealed; and at each offset from the
/// floor up to the next one lies a message with this offset.
pub fn order_means()
    ensures numbers { (list : ShardList) (cut : Cut) → IsList list → HasPlace list.cuts cut →
        ((oldest_of list.cuts).number ≤ cut.number) × (cut.number ≤ (newest list).number) }
    ensures once { (list : ShardList) (cut other : Cut) → IsList list → HasPlace list.cuts cut →
        HasPlace list.cuts other → cut.number ≡ other.number → cut ≡ other }
    ensures firsts { (list : ShardList) (cut : Cut) → IsList list → HasPlace list.cuts cut →
        (floor_of list ≤ cut.first) × (cut.first ≤ next_of list) }
    ensures newest { (list : ShardList) → IsList list →
        HasPlace list.cuts (newest list) × ((newest list).sealed ≡ None) }
    ensures sealed { (list : ShardList) (cut : Cut) → IsList list → HasPlace list.cuts cut →
        cut.sealed ≡ None → cut ≡ newest list }
    ensures messages { (list : ShardList) (offset : ℕ) → IsList list →
        floor_of list ≤ offset → offset < next_of list →
        (m : StoredMessage) × (message_at list offset ≡ Some m) × (m.offset ≡ offset) }
{}

/// A law: what has grown from a list that has grown has grown from the first.
pub fn growing_goes_on()
    ensures { (list later latest : ShardList) → IsList later → IsList latest →
        HasGrown list later → HasGrown later latest → HasGrown list latest }
{}

/// A law: sealing the newest generation and beginning a new one leaves a list in order, and it has grown.
pub fn rotating_grows()
    ensures list { (config : Config) (now : ℕ) (list : ShardList) →
        IsList list → IsList (rotated config now list) }
    ensures grown { (config : Config) (now : ℕ) (list : ShardList) →
        IsList list → HasGrown list (rotated config now list) }
{}

/// A law: dropping the oldest generation leaves a list in order, and it has grown: what both hold is the same.
pub fn dropping_grows()
    ensures list { (list : ShardList) → IsList list → IsList (dropped list) }
    ensures grown { (list : ShardList) → IsList list → HasGrown list (dropped list) }
{}

/// A law: as a list grows, each generation that isn't gone is still held: it ends where it did or later, and its
/// messages keep their streams, with more messages behind them.
pub fn streams_stay()
    ensures { (profile : Profile) (list later : ShardList) (g : HeldGeneration) →
        IsList list → IsList later → HasGrown list later →
        HasPlace (held_generations profile list) g → (oldest_of later.cuts).number ≤ g.cut.number →
        (other : HeldGeneration) × HasPlace (held_generations profile later) other × Continues g other }
{}

/// A law: whatever move a shard makes, what is stored has grown from what was stored, and where no drop pends, the
/// floor stays, so that no message goes. A list has grown from itself, as where a move isn't allowed.
pub fn moves_only_add()
    ensures itself { (list : ShardList) → IsList list → HasGrown list list }
    ensures grown { (profile : Profile) (config : Config) (s : Shard) (move : ShardMove) →
        IsList s.stored → HasGrown s.stored (shard_step profile config s move).stored }
    ensures floor { (profile : Profile) (config : Config) (s : Shard) (move : ShardMove) →
        IsList s.stored → if_drop s.pending ≡ false →
        floor_of (shard_step profile config s move).stored ≡ floor_of s.stored }
{}

/// A law: a shard begins in order, and each move leaves it in order, and so do all the moves after one another, and a
/// crash, whether what pends goes in or not: what is stored and what is shown are lists in order, and what is stored
/// has grown from what is shown.
pub fn moves_keep_order()
    ensures opening { (config : Config) → IsShard (opening_shard config) }
    ensures step { (profile : Profile) (config : Config) (s : Shard) (move : ShardMove) →
        IsShard s → IsShard (shard_step profile config s move) }
    ensures run { (profile : Profile) (config : Config) (moves : List ShardMove) →
        IsShard (shard_run profile config (opening_shard config) moves) }
    ensures crash { (config : Config) (goes_in : Bool) (s : Shard) →
        IsShard s → IsShard (crashed_shard config goes_in s) }
{}

/// A law: what pends isn't shown. Show alone changes what is shown: it shows what is stored where nothing pends, and it
/// leaves the shard as it is while something does.
pub fn pending_is_not_shown()
    ensures kept { (profile : Profile) (config : Config) (s : Shard) (move : ShardMove) →
        is_show move ≡ false → (shard_step profile config s move).shown ≡ s.shown }
    ensures shown { (profile : Profile) (config : Config) (s : Shard) →
        s.pending ≡ Nothing → (shard_step profile config s Show).shown ≡ s.stored }
    ensures waits { (profile : Profile) (config : Config) (s : Shard) →
        pends_nothing s.pending ≡ false → shard_step profile config s Show ≡ s }
{}

/// A law: behind a crash, whether what pended went in or not, what is stored has grown from what was stored, and is
/// what is shown; and where no drop pended, the floor stays, so that no message goes.
pub fn crash_takes_nothing()
    ensures grown { (config : Config) (goes_in : Bool) (s : Shard) →
        IsList s.stored → HasGrown s.stored (crashed_shard config goes_in s).stored }
    ensures floor { (config : Config) (goes_in : Bool) (s : Shard) →
        IsList s.stored → if_drop s.pending ≡ false →
        floor_of (crashed_shard config goes_in s).stored ≡ floor_of s.stored }
    ensures shown { (config : Config) (goes_in : Bool) (s : Shard) →
        (crashed_shard config goes_in s).shown ≡ (crashed_shard config goes_in s).stored }
{}

/// A law: the next run of a sweep in order, over a list in order, skips nothing. Its messages rise by their offsets,
/// each is wanted and not issued yet, and each earlier wanted message of its topic was issued or stands before it; they
/// are as many as the limit at most, and the sweep behind each of them is in order and counts what the sweep did and
/// those up to this one. Each front of a run is the run of a lower limit. None comes exactly where all that is wanted
/// was issued, or the limit is 0.
pub fn the_next_run_is_in_order()
    ensures next { (profile : Profile) (wish : Tokens) (start : ℕ) (list : ShardList)
        (sweep : Sweep) (limit : ℕ) (run : Run) → IsList list →
        is_in_order profile list start sweep ≡ true →
        next_run profile wish start list sweep limit ≡ Some run →
        IsNextRun profile wish start list sweep limit run }
    ensures front { (profile : Profile) (wish : Tokens) (start : ℕ) (list : ShardList)
        (sweep : Sweep) (limit few : ℕ) (run : Run) → 0 < few → few ≤ limit →
        next_run profile wish start list sweep limit ≡ Some run →
        next_run profile wish start list sweep few
        ≡ Some (record run { messages = take few run.messages }) }
    ensures none { (profile : Profile) (wish : Tokens) (start : ℕ) (list : ShardList)
        (sweep : Sweep) (limit : ℕ) (w : StoredMessage) → IsList list →
        is_in_order profile list start sweep ≡ true → 0 < limit →
        next_run profile wish start list sweep limit ≡ None →
        HasPlace (wanted wish start list) w → is_issued_by profile list sweep w.offset ≡ true }
    ensures ended { (profile : Profile) (wish : Tokens) (start : ℕ) (list : ShardList)
        (sweep : Sweep) (limit : ℕ) → IsList list →
        is_in_order profile list start sweep ≡ true →
        ((w : StoredMessage) → HasPlace (wanted wish start list) w →
        is_issued_by profile list sweep w.offset ≡ true) →
        next_run profile wish start list sweep limit ≡ None }
    ensures limit { (profile : Profile) (wish : Tokens) (start : ℕ) (list : ShardList)
        (sweep : Sweep) → next_run profile wish start list sweep 0 ≡ None }
{}

/// A law: as a list grows, a sweep in order stays in order; of each message that was there and still is it counts what
/// it counted, and it counts none of the new ones.
pub fn sweeps_stay()
    ensures order { (profile : Profile) (list later : ShardList) (start : ℕ) (sweep : Sweep) →
        IsList list → IsList later → HasGrown list later →
        is_in_order profile list start sweep ≡ true → is_in_order profile later start sweep ≡ true }
    ensures old { (profile : Profile) (list later : ShardList) (start : ℕ) (sweep : Sweep)
        (m : StoredMessage) → IsList list → IsList later → HasGrown list later →
        is_in_order profile list start sweep ≡ true →
        HasPlace later.messages m → m.offset < next_of list →
        is_issued_by profile later sweep m.offset ≡ is_issued_by profile list sweep m.offset }
    ensures new { (profile : Profile) (list later : ShardList) (start : ℕ) (sweep : Sweep)
        (m : StoredMessage) → IsList list → IsList later → HasGrown list later →
        is_in_order profile list start sweep ≡ true →
        HasPlace later.messages m → next_of list ≤ m.offset →
        is_issued_by profile later sweep m.offset ≡ false }
{}
