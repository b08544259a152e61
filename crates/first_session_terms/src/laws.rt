ghost use Rattle.std.specs.Prelude.{List, ◌≡◌, ◌++◌};
ghost use Rattle.first_session_terms.specs.PlainSession.{PlainSession};
ghost use Rattle.first_session_terms.specs.Change.{Change, act_all};

/// Changes one after the other are the changes of both lists: a record may hold the changes of several packets.
pub fn changes_compose()
    ensures { (sessions : List PlainSession) (first then_more : List Change) → act_all sessions (first ++ then_more) ≡ act_all (act_all sessions first) then_more }
{}
