ghost use Rattle.std.specs.Prelude.{◌≡◌, [], ◌∷◌, ◌++◌, OnOk, OnErr};

use crate::props::Props;
use std::alloc::{AllocError, Global};
use std::marker::Model;
use topic_name::{Blob, Name};

/// A filter with its subscription options (MQTT 3.8.3).
#[derive(Debug, Drop)]
pub struct Wish {
    pub filter: Name,
    pub options: u8,
}

/// The filters of a SUBSCRIBE, seen as their list.
#[derive(Debug, Drop)]
pub struct Wishes {
    list: Vec<Wish>,
}

impl Model for Wishes {
    ghost use Rattle.std.specs.Prelude.{List};
    ghost use Rattle.first_mqtt_packet.specs.declared.packet.Wish.{Wish};

    ghost Value = { List Wish };

    ghost view = { λ w. w.list.items };
}

impl Wishes {
    /// No filters.
    pub fn new(alloc: Global) -> Wishes
        ensures { result ≡ [] }
    {
        Wishes {
            list: Vec::new(alloc),
        }
    }

    /// Adds one at the end.
    pub fn push(&mut self, wish: Wish) -> Result<(), AllocError>
        ensures ok { OnOk result (self.new ≡ self.old ++ wish ∷ []) }
        ensures err { OnErr result (self.new ≡ self.old) }
    {
        self.list.push(wish)?;
        Ok(())
    }

    pub fn list(&self) -> &[Wish]
        ensures { result.now ≡ self.now }
    {
        &self.list
    }
}

/// What the server publishes for a client that is gone (MQTT 3.1.2.5).
#[derive(Debug, Drop)]
pub struct Will {
    pub qos: u8,
    pub retain: bool,
    pub props: Props,
    pub topic: Name,
    pub payload: Blob,
}

/// A packet (MQTT 3). These kinds are built so far.
#[derive(Debug, Drop)]
pub enum Packet {
    Connect {
        clean: bool,
        keep_alive: u16,
        props: Props,
        client: Name,
        will: Option<Will>,
        user: Option<Name>,
        password: Option<Blob>,
    },
    Connack {
        present: bool,
        reason: u8,
        props: Props,
    },
    Publish {
        dup: bool,
        qos: u8,
        retain: bool,
        topic: Name,
        id: u16,
        props: Props,
        payload: Blob,
    },
    Puback {
        id: u16,
        reason: u8,
        props: Props,
    },
    Subscribe {
        id: u16,
        props: Props,
        filters: Wishes,
    },
    Suback {
        id: u16,
        props: Props,
        reasons: Blob,
    },
    Disconnect {
        reason: u8,
        props: Props,
    },
}
