ghost use Rattle.std.specs.Prelude.{◌≡◌, IfOk};
ghost use Rattle.first_topic_name.specs.Pieces.{levels_of, text_of_levels};

use std::alloc::AllocError;
use std::marker::Model;
use topic_name::Name;

/// A topic name, seen as its levels (MQTT 4.7).
#[derive(Debug, Drop)]
pub struct Topic {
    name: Name,
}

impl Model for Topic {
    ghost use Rattle.std.specs.Prelude.{List, ℕ};

    ghost Value = { List (List ℕ) };

    ghost use Rattle.first_topic_name.specs.Pieces.{levels_of};

    ghost view = { λ t. levels_of t.name };
}

impl Topic {
    /// The topic of this text.
    pub fn of(name: Name) -> Topic
        ensures { result ≡ levels_of name }
    {
        Topic { name }
    }

    /// Its text.
    pub fn name(&self) -> &Name
        ensures levels { levels_of result.now ≡ self.now }
        ensures text { result.now ≡ text_of_levels self.now }
    {
        &self.name
    }

    pub fn copy(&self) -> Result<Topic, AllocError>
        ensures { IfOk result (λ t. t ≡ self.now) }
    {
        let name = self.name.copy()?;
        Ok(Topic { name })
    }
}
