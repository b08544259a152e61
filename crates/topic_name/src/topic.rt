ghost use Rattle.std.specs.Prelude.{◌≡◌, ◌≢◌, ◌<◌, ◌≤◌, length, None, Some, IfOk, IfErr, OnOk, IsErrOf};
ghost use Rattle.topic_model.specs.Levels.{levels_of, text_of_levels};
ghost use Rattle.topic_model.specs.Texts.{most_levels, topic_refusal};
ghost use Rattle.topic_name.specs.LevelsLeft.{levels_left};

use crate::texts::topic_refusal;
use crate::{Levels, Name};
use std::alloc::{AllocError, Global};
use std::marker::Model;
use topic_model::TopicRefused;

/// A topic name, seen as its levels: at least one, and at most `MOST_LEVELS` (MQTT 4.7).
#[derive(Debug, Drop)]
pub struct Topic {
    name: Name,
}

impl Model for Topic {
    ghost use Rattle.std.specs.Prelude.{◌≡◌, List, ℕ, None};
    ghost use Rattle.topic_model.specs.Levels.{levels_of};
    ghost use Rattle.topic_model.specs.Texts.{topic_refusal};

    ghost Value = { List (List ℕ) };

    ghost view = { λ t. levels_of t.name };

    ghost invariant = { λ t. topic_refusal t.name ≡ None };
}

impl Topic {
    /// The topic name that a text is. `TopicRefused` says why a text is none, the first that holds; `Memory` comes only
    /// where it is one (MQTT 4.7).
    pub fn read(alloc: Global, text: &str) -> Result<Topic, TopicRefused>
        ensures levels { IfOk result (λ topic. topic ≡ levels_of text.now) }
        ensures accepted { OnOk result (topic_refusal text.now ≡ None) }
        ensures refused { IfErr result
            (λ e. e ≢ TopicRefused.Memory → topic_refusal text.now ≡ Some e) }
        ensures memory { IsErrOf result TopicRefused.Memory → topic_refusal text.now ≡ None }
    {
        match topic_refusal(text) {
            Some(refused) => Err(refused),
            None => {
                let name = Name::of(alloc, text)?;
                Ok(Topic { name })
            }
        }
    }

    /// Its text.
    pub fn text(&self) -> &str
        ensures text { result.now ≡ text_of_levels self.now }
        ensures levels { levels_of result.now ≡ self.now }
        ensures accepted { topic_refusal result.now ≡ None }
    {
        self.name.text()
    }

    /// Its levels, from the first on.
    pub fn levels(&self) -> Levels<'_>
        ensures levels { levels_left result ≡ self.now }
        ensures some { 0 < length self.now }
        ensures few { length self.now ≤ most_levels }
    {
        Levels::of(self.name.text())
    }

    pub fn copy(&self) -> Result<Topic, AllocError>
        ensures { IfOk result (λ topic. topic ≡ self.now) }
    {
        let name = self.name.copy()?;
        Ok(Topic { name })
    }
}
