ghost use Rattle.std.specs.Prelude.{◌≡◌, ◌≤◌, ◌++◌, length, OnOk, OnErr};
ghost use Rattle.wire_fields.specs.Spelled.{spelled_text};
ghost use Rattle.mqtt_props.specs.Prop.{id_of, is_bad, spelled_value, spelled_prop, IsProp};

use crate::table::{MAXIMUM_PACKET_SIZE, RECEIVE_MAXIMUM, SUBSCRIPTION_IDENTIFIER, USER_PROPERTY};
use std::alloc::AllocError;
use topic_name::{Blob, Name};
use wire_fields::{MOST_BIN, put_bin, put_text, put_u8, put_u16, put_u32, put_var, var_length};

// The most bytes of a property: an identifier in at most four, and two texts.
pub(crate) const MOST_PROP: usize = 131_078;

/// A property (MQTT 2.2.2.2). The first number is its identifier, but for a Subscription Identifier and a User
/// Property, which have one each.
#[derive(Debug, Drop)]
pub enum Prop {
    Byte(u8, u8),
    Two(u8, u16),
    Four(u8, u32),
    /// A Subscription Identifier, at most 268,435,455 (MQTT 1.5.5).
    Var(u32),
    Text(u8, Name),
    Bin(u8, Blob),
    /// A User Property: its name and its value.
    Pair(Name, Name),
}

impl Prop {
    /// Its identifier.
    pub fn identifier(&self) -> u8
        ensures { result ≡ id_of self.now }
    {
        match self {
            Prop::Byte(identifier, _) => *identifier,
            Prop::Two(identifier, _) => *identifier,
            Prop::Four(identifier, _) => *identifier,
            Prop::Var(_) => SUBSCRIPTION_IDENTIFIER,
            Prop::Text(identifier, _) => *identifier,
            Prop::Bin(identifier, _) => *identifier,
            Prop::Pair(_, _) => USER_PROPERTY,
        }
    }

    /// Whether the standard does not allow its value: a byte above 1, and the value 0 of a Receive Maximum, a Maximum
    /// Packet Size or a Subscription Identifier (MQTT 3.1.2.11.3, 3.1.2.11.4, 3.8.2.1.2).
    pub fn is_bad(&self) -> bool
        ensures { result ≡ is_bad self.now }
    {
        match self {
            Prop::Byte(_, value) => 1 < *value,
            Prop::Two(identifier, value) => *identifier == RECEIVE_MAXIMUM && *value == 0,
            Prop::Four(identifier, value) => *identifier == MAXIMUM_PACKET_SIZE && *value == 0,
            Prop::Var(value) => *value == 0,
            Prop::Text(_, _) => false,
            Prop::Bin(_, _) => false,
            Prop::Pair(_, _) => false,
        }
    }
}

/// Writes a property at the end: its identifier and its value (MQTT 2.2.2.2). On want of memory `out` stays as it was.
pub fn write_prop(prop: &Prop, out: &mut Vec<u8>) -> Result<(), AllocError>
    requires { IsProp prop.now }
    ensures ok { OnOk result (out.new.items ≡ out.old.items ++ spelled_prop prop.now) }
    ensures err { OnErr result (out.new.items ≡ out.old.items) }
{
    let before = out.len();
    put_var(u32::from(prop.identifier()), out)?;
    if let Err(error) = put_value(prop, out) {
        out.truncate(before);
        return Err(error);
    }
    Ok(())
}

fn put_value(prop: &Prop, out: &mut Vec<u8>) -> Result<(), AllocError>
    requires { IsProp prop.now }
    ensures ok { OnOk result (out.new.items ≡ out.old.items ++ spelled_value prop.now) }
    ensures err { OnErr result (out.new.items ≡ out.old.items) }
{
    match prop {
        Prop::Byte(_, value) => put_u8(*value, out),
        Prop::Two(_, value) => put_u16(*value, out),
        Prop::Four(_, value) => put_u32(*value, out),
        Prop::Var(value) => put_var(*value, out),
        Prop::Text(_, text) => put_text(text.bytes(), out),
        Prop::Bin(_, bytes) => put_bin(bytes.bytes(), out),
        Prop::Pair(name, value) => put_pair(name.bytes(), value.bytes(), out),
    }
}

fn put_pair(name: &[u8], value: &[u8], out: &mut Vec<u8>) -> Result<(), AllocError>
    requires name { length name.now ≤ MOST_BIN }
    requires value { length value.now ≤ MOST_BIN }
    ensures ok { OnOk result
        (out.new.items ≡ out.old.items ++ (spelled_text name.now ++ spelled_text value.now)) }
    ensures err { OnErr result (out.new.items ≡ out.old.items) }
{
    let before = out.len();
    put_text(name, out)?;
    if let Err(error) = put_text(value, out) {
        out.truncate(before);
        return Err(error);
    }
    Ok(())
}

/// How many bytes a property takes (MQTT 2.2.2.2).
pub(crate) fn prop_length(prop: &Prop) -> usize
    requires { IsProp prop.now }
    ensures size { result ≡ length (spelled_prop prop.now) }
    ensures few { result ≤ MOST_PROP }
{
    var_length(u32::from(prop.identifier())) + value_length(prop)
}

fn value_length(prop: &Prop) -> usize
    requires { IsProp prop.now }
    ensures size { result ≡ length (spelled_value prop.now) }
    ensures few { result ≤ 131074 }
{
    match prop {
        Prop::Byte(_, _) => 1,
        Prop::Two(_, _) => 2,
        Prop::Four(_, _) => 4,
        Prop::Var(value) => var_length(*value),
        Prop::Text(_, text) => 2 + text.bytes().len(),
        Prop::Bin(_, bytes) => 2 + bytes.bytes().len(),
        Prop::Pair(name, value) => 4 + name.bytes().len() + value.bytes().len(),
    }
}
