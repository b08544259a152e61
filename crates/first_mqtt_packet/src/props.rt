ghost use Rattle.std.specs.Prelude.{◌≡◌, [], ◌∷◌, ◌++◌, OnOk, OnErr};

use std::alloc::{AllocError, Global};
use std::marker::Model;
use topic_name::{Blob, Name};

/// A property (MQTT 2.2.2.2). The first number is its identifier, but for a Subscription Identifier and a User
/// Property, which have one each.
#[derive(Debug, Drop)]
pub enum Prop {
    Byte(u8, u8),
    Two(u8, u16),
    Four(u8, u32),
    /// A Subscription Identifier, at most 268,435,455 (MQTT 1.5.5).
    Var(u32),
    Text(u8, Name),
    Bin(u8, Blob),
    /// A User Property.
    Pair(Name, Name),
}

/// The properties of a packet, seen as their list in writing order.
#[derive(Debug, Drop)]
pub struct Props {
    list: Vec<Prop>,
}

impl Model for Props {
    ghost use Rattle.std.specs.Prelude.{List};
    ghost use Rattle.first_mqtt_packet.specs.declared.props.Prop.{Prop};

    ghost Value = { List Prop };

    ghost view = { λ p. p.list.items };
}

impl Props {
    /// No properties.
    pub fn new(alloc: Global) -> Props
        ensures { result ≡ [] }
    {
        Props {
            list: Vec::new(alloc),
        }
    }

    /// Adds one at the end.
    pub fn push(&mut self, prop: Prop) -> Result<(), AllocError>
        ensures ok { OnOk result (self.new ≡ self.old ++ prop ∷ []) }
        ensures err { OnErr result (self.new ≡ self.old) }
    {
        self.list.push(prop)?;
        Ok(())
    }

    pub fn list(&self) -> &[Prop]
        ensures { result.now ≡ self.now }
    {
        &self.list
    }
}
