ghost use Rattle.std.specs.Prelude.{◌≡◌, ◌-◌, [], Some};
ghost use Rattle.first_session_core.specs.PlainConnection.{bound_connection, two_of, four_of, two_value, four_value};
ghost use Rattle.first_session_core.specs.Pump.{quota_used};

use crate::tracks::used_by;
use first_mqtt_packet::{Prop, Props};
use first_session_terms::Entry;
use std::marker::Model;
use topic_name::Name;

/// A connection that is bound to a client's session. Contracts see a `PlainConnection`.
#[derive(Debug, Drop)]
pub struct Connection {
    number: u16,
    client: Name,
    quota: u16,
    quota_start: u16,
    packet_limit: u32,
    keep_alive: u16,
    last: u64,
    served: Option<(u32, u8)>,
}

impl Model for Connection {
    ghost use Rattle.std.specs.Prelude.{[]};
    ghost use Rattle.first_session_core.specs.PlainConnection.{PlainConnection};

    ghost Value = { PlainConnection };

    ghost view = { λ k. record { number = k.number; client = k.client; quota = k.quota; quota_start = k.quota_start; packet_limit = k.packet_limit; keep_alive = k.keep_alive; last = k.last; held = []; rest = []; passed = []; served = k.served } };
}

impl Connection {
    /// The connection of a CONNECT with these properties, at a moment in milliseconds (MQTT 3.1.2.11).
    pub fn bound(number: u16, client: Name, keep_alive: u16, props: &Props, now: u64) -> Connection
        ensures { result ≡ bound_connection number client keep_alive props.now now }
    {
        let quota = two_in(props.list(), 33, 65535);
        Connection {
            number,
            client,
            quota,
            quota_start: quota,
            packet_limit: four_in(props.list(), 39, 4294967295),
            keep_alive,
            last: now,
            served: None,
        }
    }

    pub fn number(&self) -> u16
        ensures { result ≡ self.now.number }
    {
        self.number
    }

    pub fn client(&self) -> &Name
        ensures { result.now ≡ self.now.client }
    {
        &self.client
    }

    /// How many more messages above QoS 0 may be under way (MQTT 4.9).
    pub fn quota(&self) -> u16
        ensures { result ≡ self.now.quota }
    {
        self.quota
    }

    /// The longest packet that its client takes (MQTT 3.1.2.11.4).
    pub fn packet_limit(&self) -> u32
        ensures { result ≡ self.now.packet_limit }
    {
        self.packet_limit
    }

    /// These entries of the one subscription in the one shard went out: those above QoS 0 count (MQTT 4.9).
    pub fn spend(&mut self, entries: &[Entry])
        ensures { self.new ≡ record self.old { quota = self.old.quota - quota_used entries.now; served = Some (1, 0) } }
    {
        let left = (self.quota as u64).saturating_sub(used_by(entries));
        self.quota = left as u16;
        self.served = Some((1, 0));
    }
}

// The value of a two-byte property with this identifier.
fn two_value_of(prop: &Prop, identifier: u8) -> Option<u16>
    ensures { result ≡ two_value identifier prop.now }
{
    match prop {
        Prop::Two(i, value) => { if *i == identifier { Some(*value) } else { None } }
        _ => None,
    }
}

// The same of a four-byte property.
fn four_value_of(prop: &Prop, identifier: u8) -> Option<u32>
    ensures { result ≡ four_value identifier prop.now }
{
    match prop {
        Prop::Four(i, value) => { if *i == identifier { Some(*value) } else { None } }
        _ => None,
    }
}

// The first such value, or another number where there is none.
fn two_in(props: &[Prop], identifier: u8, absent: u16) -> u16
    ensures { result ≡ two_of identifier absent props.now }
{
    for prop in props {
        if let Some(value) = two_value_of(prop, identifier) {
            return value;
        }
    }
    absent
}

/// The value of the first four-byte property with this identifier, or another number where there is none.
pub fn four_in(props: &[Prop], identifier: u8, absent: u32) -> u32
    ensures { result ≡ four_of identifier absent props.now }
{
    for prop in props {
        if let Some(value) = four_value_of(prop, identifier) {
            return value;
        }
    }
    absent
}
