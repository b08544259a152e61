ghost use Rattle.std.specs.Prelude.{◌≡◌, List, ℕ};
ghost use Rattle.first_world_terms.specs.Turn.{opening_state};
ghost use Rattle.first_world_terms.specs.Run.{after_lines, text_of_lines};
ghost use Rattle.first_world_terms.specs.PlainBroker.{empty_broker, plain_text};
ghost use Rattle.first_world_terms.specs.Laws.{IssuesPrefixes};

/// The text of a run of the world is what the plain broker prints, whatever the lines.
pub fn plain_runs_are_runs()
    ensures { (texts : List (List ℕ)) → text_of_lines opening_state texts ≡ plain_text empty_broker texts }
{}

/// At the end of each run of lines every subscription was issued a prefix of what it wants, topic by topic.
pub fn every_run_issues_prefixes()
    ensures { (texts : List (List ℕ)) → IssuesPrefixes (after_lines opening_state texts).world }
{}
