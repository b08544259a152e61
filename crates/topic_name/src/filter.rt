ghost use Rattle.std.specs.Prelude.{◌≡◌, ◌≢◌, ◌<◌, ◌≤◌, ◌↔◌, length, None, Some, IfOk, IfErr, OnOk, IsErrOf, IsTrue};
ghost use Rattle.std.specs.Str.{bytes_eq};
ghost use Rattle.topic_model.specs.Levels.{levels_of, text_of_levels};
ghost use Rattle.topic_model.specs.Texts.{most_levels, filter_refusal};
ghost use Rattle.topic_name.specs.LevelsLeft.{levels_left};

use crate::texts::filter_refusal;
use crate::{Levels, Name};
use std::alloc::{AllocError, Global};
use std::marker::Model;
use topic_model::FilterRefused;

/// A topic filter, seen as its levels: at least one, and at most `MOST_LEVELS` (MQTT 4.7).
#[derive(Debug, Drop)]
pub struct Filter {
    name: Name,
}

impl Model for Filter {
    ghost use Rattle.std.specs.Prelude.{◌≡◌, List, ℕ, None};
    ghost use Rattle.topic_model.specs.Levels.{levels_of};
    ghost use Rattle.topic_model.specs.Texts.{filter_refusal};

    ghost Value = { List (List ℕ) };

    ghost view = { λ f. levels_of f.name };

    ghost invariant = { λ f. filter_refusal f.name ≡ None };
}

impl Filter {
    /// The filter that a text is. `FilterRefused` says why a text is none, the first that holds; `Memory` comes only
    /// where it is one (MQTT 4.7).
    pub fn read(alloc: Global, text: &str) -> Result<Filter, FilterRefused>
        ensures levels { IfOk result (λ filter. filter ≡ levels_of text.now) }
        ensures accepted { OnOk result (filter_refusal text.now ≡ None) }
        ensures refused { IfErr result
            (λ e. e ≢ FilterRefused.Memory → filter_refusal text.now ≡ Some e) }
        ensures memory { IsErrOf result FilterRefused.Memory → filter_refusal text.now ≡ None }
    {
        match filter_refusal(text) {
            Some(refused) => Err(refused),
            None => {
                let name = Name::of(alloc, text)?;
                Ok(Filter { name })
            }
        }
    }

    /// Its text.
    pub fn text(&self) -> &str
        ensures text { result.now ≡ text_of_levels self.now }
        ensures levels { levels_of result.now ≡ self.now }
        ensures accepted { filter_refusal result.now ≡ None }
    {
        self.name.text()
    }

    /// Its levels, from the first on.
    pub fn levels(&self) -> Levels<'_>
        ensures levels { levels_left result ≡ self.now }
        ensures some { 0 < length self.now }
        ensures few { length self.now ≤ most_levels }
    {
        Levels::of(self.name.text())
    }

    /// Whether both are the same filter.
    pub fn is(&self, other: &Filter) -> bool
        ensures texts { result ≡ bytes_eq (text_of_levels self.now) (text_of_levels other.now) }
        ensures levels { IsTrue result ↔ (self.now ≡ other.now) }
    {
        self.name.is(&other.name)
    }

    pub fn copy(&self) -> Result<Filter, AllocError>
        ensures { IfOk result (λ filter. filter ≡ self.now) }
    {
        let name = self.name.copy()?;
        Ok(Filter { name })
    }
}
