ghost use Rattle.std.specs.Prelude.{◌≡◌, ◌+◌, ◌<◌, ◌^◌, [], ◌∷◌, length, OnOk, OnErr};
ghost use Rattle.first_session_terms.specs.PlainSession.{begun_session, issued1_of, issued2_of, room_of};
ghost use Rattle.first_session_terms.specs.Change.{parted_session, subscribed_session, issued_session};
ghost use Rattle.first_session_core.specs.SessionView.{sweep_of, subscriptions_of, versions_of};

use crate::subscription::Subscription;
use crate::tracks::{total1, total2};
use first_session_terms::Entry;
use first_topic_name::Filter;
use std::alloc::{AllocError, Global};
use std::marker::Model;
use topic_name::Name;

/// What the broker keeps of a client, with or without a connection (MQTT 4.1). Contracts see a `PlainSession`.
#[derive(Debug, Drop)]
pub struct Session {
    client: Name,
    incarnation: u64,
    expiry: u32,
    parted: Option<u64>,
    subscription: Option<Subscription>,
    issued: Vec<Entry>,
}

impl Model for Session {
    ghost use Rattle.std.specs.Prelude.{[]};
    ghost use Rattle.first_session_terms.specs.PlainSession.{PlainSession};

    ghost Value = { PlainSession };

    ghost use Rattle.first_session_core.specs.SessionView.{subscriptions_of, versions_of};

    ghost view = { λ s. record { client = s.client; incarnation = s.incarnation; window = 512; expiry = s.expiry; parted = s.parted; subscriptions = subscriptions_of s.subscription; versions = versions_of s.subscription; issued = s.issued.items; acked = 0; received = 0; done = [] } };
}

impl Session {
    /// A session that begins: its client, its number, and for how many seconds it stays without a connection.
    pub fn begun(alloc: Global, client: Name, incarnation: u64, expiry: u32) -> Session
        ensures { result ≡ begun_session client incarnation expiry }
    {
        Session {
            client,
            incarnation,
            expiry,
            parted: None,
            subscription: None,
            issued: Vec::new(alloc),
        }
    }

    pub fn client(&self) -> &Name
        ensures { result.now ≡ self.now.client }
    {
        &self.client
    }

    /// Its number among the sessions of its worker.
    pub fn incarnation(&self) -> u64
        ensures { result ≡ self.now.incarnation }
    {
        self.incarnation
    }

    /// For how many seconds it stays without a connection (MQTT 3.1.2.11.2).
    pub fn expiry(&self) -> u32
        ensures { result ≡ self.now.expiry }
    {
        self.expiry
    }

    /// Its connection ended at this moment, in milliseconds.
    pub fn part(&mut self, expiry: u32, moment: u64)
        ensures { self.new ≡ parted_session expiry moment self.old }
    {
        self.expiry = expiry;
        self.parted = Some(moment);
    }

    /// Subscribes from an offset on (MQTT 3.8.4).
    pub fn subscribe(&mut self, filter: Filter, options: u8, next: u64)
        requires { self.old.subscriptions ≡ [] }
        ensures { self.new ≡ subscribed_session (length self.old.subscriptions + 1) (length self.old.versions + 1) options 0 filter (sweep_of next next next ∷ []) self.old }
    {
        self.subscription = Some(Subscription {
            filter,
            options,
            start: next,
            base: next,
            target: next,
            position: next,
        });
    }

    /// Entries were issued to the subscription, and its sweep is then here.
    pub fn issue(
        &mut self,
        entries: &[Entry],
        base: u64,
        target: u64,
        position: u64,
    ) -> Result<(), AllocError>
        ensures ok { OnOk result (self.new ≡ issued_session 1 0 entries.now (sweep_of base target position) self.old) }
        ensures err { OnErr result (self.new ≡ self.old) }
    {
        self.issued.extend_from_slice(entries)?;
        if let Some(s) = &mut self.subscription {
            s.base = base;
            s.target = target;
            s.position = position;
        }
        Ok(())
    }

    /// Its one subscription, if it has it.
    pub fn subscription(&self) -> &Option<Subscription>
        ensures subscriptions { subscriptions_of result.now ≡ self.now.subscriptions }
        ensures versions { versions_of result.now ≡ self.now.versions }
    {
        &self.subscription
    }

    /// How many entries of QoS 1 it was issued.
    pub fn issued1(&self) -> u64
        ensures value { result ≡ issued1_of self.now }
        ensures small { result < 2 ^ 63 }
    {
        total1(&self.issued)
    }

    /// How many entries of QoS 2 it was issued.
    pub fn issued2(&self) -> u64
        ensures value { result ≡ issued2_of self.now }
        ensures small { result < 2 ^ 63 }
    {
        total2(&self.issued)
    }

    /// How many more may be unfinished.
    pub fn room(&self) -> u64
        ensures { result ≡ room_of self.now }
    {
        512u64.saturating_sub(total1(&self.issued) + total2(&self.issued))
    }
}
