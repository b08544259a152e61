ghost use Rattle.std.specs.Prelude.{◌≡◌, ℕ, List, None};
ghost use Rattle.topic_model.specs.Levels.{levels_of, text_of_levels};
ghost use Rattle.topic_model.specs.Routing.{hashed_shard, hashed_worker, shard_of, worker_of};
ghost use Rattle.topic_model.specs.Texts.{topic_refusal, filter_refusal};
ghost use Rattle.topic_model.specs.Texts.{IsTopicText, IsFilterText};

/// A law: a client goes where the hash of its identifier says, also where that isn't computed, as there is one shard or
/// one worker.
pub fn clients_go_by_their_hash()
    ensures shard { (client : List ℕ) (shards : ℕ) →
        shard_of client shards ≡ hashed_shard client shards }
    ensures worker { (client : List ℕ) (workers : ℕ) →
        worker_of client workers ≡ hashed_worker client workers }
{}

/// A law: the levels of a text, joined by `/`, are the text again. So levels that were cut from a text tell it.
pub fn levels_join_again()
    ensures { (text : List ℕ) → text_of_levels (levels_of text) ≡ text }
{}

/// A law: of a text that is no refused one, none of the reasons holds for which texts are refused.
pub fn accepted_texts_have_no_fault()
    ensures topics { (text : List ℕ) → topic_refusal text ≡ None → IsTopicText text }
    ensures filters { (text : List ℕ) → filter_refusal text ≡ None → IsFilterText text }
{}
