ghost use Rattle.std.specs.Prelude.{◌≡◌, IfOk};

use crate::Batch;
use shard_model::Sweep;
use std::alloc::AllocError;
use std::marker::Model;
use topic_name::{Filter, Name};

/// A change of a worker's sessions: what happens to the session of a client.
#[derive(Drop)]
pub struct Change {
    pub client: Name,
    pub effect: Effect,
}

impl Change {
    pub fn copy(&self) -> Result<Change, AllocError>
        ensures { IfOk result (λ change. change ≡ self.now) }
    {
        let client = self.client.copy()?;
        let effect = self.effect.copy()?;
        Ok(Change { client, effect })
    }
}

/// What happens to a session.
#[derive(Drop)]
pub enum Effect {
    /// It begins, bound to a connection.
    Began(Began),
    /// It ends.
    Ended,
    /// A connection takes it up, with a Session Expiry Interval in seconds (MQTT 3.1.2.11.2).
    Bound(u32),
    /// Its connection ends.
    Parted(Parted),
    /// It gets a new subscription.
    Subscribed(Subscribed),
    /// A live subscription gets a new version, as its filter is subscribed to again (MQTT 3.8.4).
    Replaced(Replaced),
    /// The live subscription with this number ends.
    Unsubscribed(u32),
    /// A batch is issued.
    Issued(Issued),
    /// PUBACK came for this number of track 1: all up to it are acknowledged (MQTT 4.3.2).
    Acked(u64),
    /// PUBREC came for this number of track 2: those between that were passed over are done (MQTT 4.3.3).
    Received(u64),
    /// PUBCOMP came for this number of track 2 (MQTT 4.3.3).
    Done(u64),
    /// What lies behind the mark of a track was passed over.
    Passed(Passed),
}

impl Effect {
    pub fn copy(&self) -> Result<Effect, AllocError>
        ensures { IfOk result (λ effect. effect ≡ self.now) }
    {
        match self {
            Effect::Began(began) => Ok(Effect::Began(*began)),
            Effect::Ended => Ok(Effect::Ended),
            Effect::Bound(expiry) => Ok(Effect::Bound(*expiry)),
            Effect::Parted(parted) => Ok(Effect::Parted(*parted)),
            Effect::Subscribed(new) => {
                let new = new.copy()?;
                Ok(Effect::Subscribed(new))
            }
            Effect::Replaced(replaced) => Ok(Effect::Replaced(*replaced)),
            Effect::Unsubscribed(number) => Ok(Effect::Unsubscribed(*number)),
            Effect::Issued(issued) => Ok(Effect::Issued(*issued)),
            Effect::Acked(number) => Ok(Effect::Acked(*number)),
            Effect::Received(number) => Ok(Effect::Received(*number)),
            Effect::Done(number) => Ok(Effect::Done(*number)),
            Effect::Passed(passed) => Ok(Effect::Passed(*passed)),
        }
    }
}

/// A session begins.
#[derive(Clone, Copy, Debug, PartialEq, Eq)]
pub struct Began {
    /// Its number among the sessions of its worker, from 1 on.
    pub incarnation: u64,
    /// Its Session Expiry Interval in seconds (MQTT 3.1.2.11.2).
    pub expiry: u32,
    /// How many of its deliveries may be unfinished.
    pub window: u16,
}

/// The connection of a session ends.
#[derive(Clone, Copy, Debug, PartialEq, Eq)]
pub struct Parted {
    /// The Session Expiry Interval that counts from then on, in seconds.
    pub expiry: u32,
    /// When that was, in milliseconds: any but the greatest number.
    pub moment: u64,
}

/// A subscription begins. Contracts see `Subscribes`.
#[derive(Drop)]
pub struct Subscribed {
    /// The session's next number of a subscription, and of a version.
    pub subscription: u32,
    pub version: u32,
    /// The options byte (MQTT 3.8.3.1), and the Subscription Identifier, 0 for none.
    pub options: u8,
    pub identifier: u32,
    pub filter: Filter,
    /// Where it begins in each shard.
    pub sweeps: Vec<Sweep>,
}

impl Model for Subscribed {
    ghost use Rattle.session_model.specs.Change.{Subscribes};

    ghost Value = { Subscribes };

    ghost view = { λ s. record {
      subscription = s.subscription;
      version = s.version;
      options = s.options;
      identifier = s.identifier;
      filter = s.filter;
      sweeps = s.sweeps.items;
    } };
}

impl Subscribed {
    pub fn copy(&self) -> Result<Subscribed, AllocError>
        ensures { IfOk result (λ new. new ≡ self.now) }
    {
        let filter = self.filter.copy()?;
        let sweeps = self.sweeps.clone()?;
        Ok(Subscribed {
            subscription: self.subscription,
            version: self.version,
            options: self.options,
            identifier: self.identifier,
            filter,
            sweeps,
        })
    }
}

/// A live subscription gets a new version.
#[derive(Clone, Copy, Debug, PartialEq, Eq)]
pub struct Replaced {
    pub subscription: u32,
    /// The session's next number of a version.
    pub version: u32,
    /// The options byte (MQTT 3.8.3.1), and the Subscription Identifier, 0 for none.
    pub options: u8,
    pub identifier: u32,
}

/// A batch of a live subscription is issued.
#[derive(Clone, Copy, Debug, PartialEq, Eq)]
pub struct Issued {
    pub subscription: u32,
    pub batch: Batch,
    /// How far the subscription is in the batch's shard afterwards.
    pub sweep: Sweep,
}

/// What lies behind the mark of a track up to a number was passed over.
#[derive(Clone, Copy, Debug, PartialEq, Eq)]
pub struct Passed {
    /// 1 or 2.
    pub track: u8,
    pub number: u64,
}
