ghost use Rattle.std.specs.Prelude.{◌≡◌, ◌==◌, ◌&&◌, ◌||◌, [], not, length, OnOk, OnErr};
ghost use Rattle.std.specs.Cmp.{partial_equiv_from_equiv};
ghost use Rattle.shard_index.specs.Identifiers.{Identifier as Told, has_identifier, identifier_writes, same_identifier, same_identifier_equiv, same_identifier_fed};

use indexmap::IndexSet;
use std::alloc::{AllocError, Global};
use std::hash::{Hash, Hasher};
use std::marker::Model;

/// An identifier that a publisher awaits, without the publisher.
#[derive(Clone, Copy, Debug)]
pub struct Identifier {
    pub incarnation: u64,
    pub id: u16,
}

impl Model for Identifier {
    ghost use Rattle.shard_index.specs.Identifiers.{Identifier as Told};

    ghost Value = { Told };

    ghost view = { λ a. record { incarnation = a.incarnation; id = a.id } };

    ghost inverse = { λ a. record { incarnation = a.incarnation; id = a.id } };
}

impl PartialEq for Identifier {
    ghost eq = { same_identifier };

    ghost laws = { partial_equiv_from_equiv same_identifier_equiv };

    fn eq(&self, other: &Self) -> bool {
        self.incarnation == other.incarnation && self.id == other.id
    }
}

impl Eq for Identifier {
    ghost laws = { same_identifier_equiv };
}

impl Hash for Identifier {
    ghost hash_input = { identifier_writes };

    ghost respects_eq = { same_identifier_fed };

    fn hash<H: Hasher>(&self, state: &mut H) {
        self.incarnation.hash(state);
        self.id.hash(state);
    }
}

/// The identifiers that one publisher awaits.
#[derive(Drop)]
pub struct Identifiers {
    set: IndexSet<Identifier>,
}

impl Model for Identifiers {
    ghost use Rattle.std.specs.Prelude.{List};
    ghost use Rattle.shard_index.specs.Identifiers.{Identifier as Told};

    ghost Value = { List Told };

    ghost view = { λ i. i.set.keys };
}

impl Identifiers {
    pub fn new(alloc: Global) -> Identifiers
        ensures { result ≡ [] }
    {
        Identifiers {
            set: IndexSet::new(alloc),
        }
    }

    pub fn is_empty(&self) -> bool
        ensures { result ≡ (length self.now == 0) }
    {
        self.set.len() == 0
    }

    pub fn has(&self, identifier: Identifier) -> bool
        ensures { result ≡ has_identifier identifier self.now }
    {
        self.set.contains(&identifier)
    }

    pub fn add(&mut self, identifier: Identifier) -> Result<(), AllocError>
        ensures added { OnOk result ((n : Told) → has_identifier n self.new
            ≡ (same_identifier identifier n || has_identifier n self.old)) }
        ensures memory { OnErr result (self.new ≡ self.old) }
    {
        self.set.insert(identifier)?;
        Ok(())
    }

    pub fn take(&mut self, identifier: Identifier)
        ensures { (n : Told) → has_identifier n self.new
            ≡ (not (same_identifier identifier n) && has_identifier n self.old) }
    {
        self.set.swap_remove(&identifier);
    }

    pub fn forget(&mut self, incarnation: u64)
        ensures { (n : Told) → has_identifier n self.new
            ≡ (not (incarnation == n.incarnation) && has_identifier n self.old) }
    {
        self.set
            .retain(|n: &Identifier| n.incarnation != incarnation);
    }
}
