ghost use Rattle.std.specs.Prelude.{◌≡◌, IfOk};
ghost use Rattle.std.specs.Cmp.{partial_equiv_from_equiv};
ghost use Rattle.shard_model.specs.Storing.{same_triple};
ghost use Rattle.shard_index.specs.Triples.{same_triple_equiv, same_triple_fed, triple_writes};

use std::alloc::AllocError;
use std::hash::{Hash, Hasher};
use std::marker::Model;
use topic_name::Name;

/// An identifier of QoS 2 that its publisher has not released yet (MQTT 4.3.3). Contracts see the model's one.
#[derive(Debug, Drop)]
pub struct Awaited {
    /// The client identifier of its publisher.
    pub publisher: Name,
    /// The number of its publisher's session.
    pub incarnation: u64,
    /// The packet identifier.
    pub id: u16,
}

impl Model for Awaited {
    ghost use Rattle.shard_model.specs.ShardList.{Awaited as Triple};

    ghost Value = { Triple };

    ghost view = { λ a. record { publisher = a.publisher; incarnation = a.incarnation; id = a.id } };
}

impl Awaited {
    /// One more like it.
    pub fn copy(&self) -> Result<Awaited, AllocError>
        ensures { IfOk result (λ awaited. awaited ≡ self.now) }
    {
        let publisher = self.publisher.copy()?;
        Ok(Awaited {
            publisher,
            incarnation: self.incarnation,
            id: self.id,
        })
    }
}

/// Two are equal where all three parts are.
impl PartialEq for Awaited {
    ghost eq = { same_triple };

    ghost laws = { partial_equiv_from_equiv same_triple_equiv };

    fn eq(&self, other: &Self) -> bool {
        other.publisher.is(&self.publisher)
            && other.incarnation == self.incarnation
            && other.id == self.id
    }
}

impl Eq for Awaited {
    ghost laws = { same_triple_equiv };
}

impl Hash for Awaited {
    ghost hash_input = { triple_writes };

    ghost respects_eq = { same_triple_fed };

    fn hash<H: Hasher>(&self, state: &mut H) {
        self.publisher.hash(state);
        self.incarnation.hash(state);
        self.id.hash(state);
    }
}
