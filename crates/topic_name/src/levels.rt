ghost use Rattle.std.specs.Prelude.{◌≡◌, ◌∷◌};
ghost use Rattle.topic_model.specs.Levels.{levels_of};
ghost use Rattle.topic_model.specs.Matching.{is_last};
ghost use Rattle.topic_name.specs.LevelsLeft.{levels_left, levels_of_rest};

/// The levels of a topic name or a filter, from the first on (MQTT 4.7.1.1). There is at least one, and each may be
/// empty. It takes no memory.
#[derive(Clone, Copy, Debug)]
pub struct Levels<'a> {
    rest: Option<&'a str>,
}

impl<'a> Levels<'a> {
    pub(crate) fn of(text: &'a str) -> Levels<'a>
        ensures { levels_left result ≡ levels_of text.now }
    {
        Levels { rest: Some(text) }
    }

    /// Whether all levels were given.
    pub fn is_done(&self) -> bool
        ensures { result ≡ is_last (levels_left self.now) }
    {
        self.rest.is_none()
    }
}

impl<'a> Iterator for Levels<'a> {
    ghost use Rattle.std.specs.Iterator.{YieldsFirstRef, item_count};
    ghost use Rattle.topic_name.specs.LevelsLeft.{levels_left};

    type Item = &'a str;

    ghost next_gives = { YieldsFirstRef levels_left };

    ghost remaining = { item_count levels_left };

    fn next(&mut self) -> Option<&'a str> {
        let (level, behind) = first_level(self.rest?);
        self.rest = behind;
        Some(level)
    }
}

// The first level, and what is behind its separator, if there is one.
fn first_level(text: &str) -> (&str, Option<&str>)
    ensures { levels_of text.now ≡ result.0.now ∷ levels_of_rest result.1 }
{
    match text.split_once('/') {
        Some((level, behind)) => (level, Some(behind)),
        None => (text, None),
    }
}
