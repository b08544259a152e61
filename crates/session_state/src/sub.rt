ghost use Rattle.std.specs.Prelude.{◌≡◌, IfOk};

use shard_model::Sweep;
use std::alloc::{AllocError, Global};
use std::marker::Model;
use topic_name::Filter;

/// A subscription of a session. Contracts see `KeptSub`.
#[derive(Drop)]
pub struct Sub {
    /// Its number among the subscriptions of its session, from 1 on.
    pub number: u32,
    /// Whether it is live. One that was ended is kept while deliveries of it are unfinished.
    pub live: bool,
    /// The number of its present version.
    pub version: u32,
    /// What it matches.
    pub filter: Filter,
    /// How far it is in each shard; none where it was ended.
    pub sweeps: Vec<Sweep>,
}

impl Model for Sub {
    ghost use Rattle.session_state.specs.KeptSub.{KeptSub};

    ghost Value = { KeptSub };

    ghost view = { λ s. record {
      number = s.number;
      live = s.live;
      version = s.version;
      filter = s.filter;
      sweeps = s.sweeps.items;
    } };
}

impl Sub {
    pub fn copy(&self) -> Result<Sub, AllocError>
        ensures { IfOk result (λ sub. sub ≡ self.now) }
    {
        let filter = self.filter.copy()?;
        let sweeps = self.sweeps.clone()?;
        Ok(Sub {
            number: self.number,
            live: self.live,
            version: self.version,
            filter,
            sweeps,
        })
    }
}

// A copy of each.
pub(crate) fn copy_all(alloc: Global, subs: &[Sub]) -> Result<Vec<Sub>, AllocError>
    ensures { IfOk result (λ copies. copies.items ≡ subs.now) }
{
    let mut copies = Vec::new(alloc);
    for sub in subs {
        let copy = sub.copy()?;
        copies.push(copy)?;
    }
    Ok(copies)
}
