ghost use Rattle.std.specs.Prelude.{◌≡◌};
ghost use Rattle.std.specs.Option.{option_map};
ghost use Rattle.std.specs.List.{list_any};
ghost use Rattle.mqtt_packet.specs.Packet.{plain};
ghost use Rattle.mqtt_packet.specs.Rules.{held, own_list, list_of_will, will_list, if_held, in_lists, is_repeated, is_bad_list, is_wild_list, is_data_alone, lacks_method, is_wild, lacks_filter, is_bad_wish, has_bad_options, broken_rule};

use crate::packet::{Packet, Will, Wish};
use crate::parts::has_wildcard;
use mqtt_props::{Holder, Props};
use topic_name::Name;

/// The rule that a property stands once (MQTT 2.2.2.2 and with each property). These numbers are what
/// `ReadRefused::Protocol` tells.
pub const REPEATED_PROPERTY: u8 = 4;
/// The rule that a property has a value that is allowed (MQTT 3.1.2.11 and with each property).
pub const BAD_VALUE: u8 = 5;
/// The rule that Authentication Data has an Authentication Method beside it in CONNECT (MQTT 3.1.2.11.10).
pub const NO_AUTHENTICATION_METHOD: u8 = 6;
/// The rule that a Response Topic has no wildcard (MQTT 3.3.2.3.5, 3.1.3.2.6).
pub const WILD_RESPONSE_TOPIC: u8 = 7;
/// The rule that SUBSCRIBE and UNSUBSCRIBE have a filter (MQTT 3.8.3, 3.10.3).
pub const NO_FILTER: u8 = 10;
/// The rule that subscription options have no QoS 3 and no Retain Handling 3 (MQTT 3.8.3.1).
pub const BAD_OPTIONS: u8 = 11;

// The properties of a packet, and what they stand in.
fn own_list(packet: &Packet) -> Option<(Holder, &Props)>
    ensures { option_map (λ h. held h.0 h.1.now) result ≡ own_list (plain packet.now) }
{
    match packet {
        Packet::Connect { props, .. } => Some((Holder::Connect, props)),
        Packet::Connack { props, .. } => Some((Holder::Connack, props)),
        Packet::Publish { props, .. } => Some((Holder::Publish, props)),
        Packet::Puback { props, .. } => Some((Holder::Puback, props)),
        Packet::Pubrec { props, .. } => Some((Holder::Pubrec, props)),
        Packet::Pubrel { props, .. } => Some((Holder::Pubrel, props)),
        Packet::Pubcomp { props, .. } => Some((Holder::Pubcomp, props)),
        Packet::Subscribe { props, .. } => Some((Holder::Subscribe, props)),
        Packet::Suback { props, .. } => Some((Holder::Suback, props)),
        Packet::Unsubscribe { props, .. } => Some((Holder::Unsubscribe, props)),
        Packet::Unsuback { props, .. } => Some((Holder::Unsuback, props)),
        Packet::Pingreq => None,
        Packet::Pingresp => None,
        Packet::Disconnect { props, .. } => Some((Holder::Disconnect, props)),
        Packet::Auth { props, .. } => Some((Holder::Auth, props)),
    }
}

// Those of the will.
fn will_list(packet: &Packet) -> Option<(Holder, &Props)>
    ensures { option_map (λ h. held h.0 h.1.now) result ≡ will_list (plain packet.now) }
{
    match packet {
        Packet::Connect { will, .. } => list_of_will(will),
        _ => None,
    }
}

fn list_of_will(will: &Option<Will>) -> Option<(Holder, &Props)>
    ensures { option_map (λ h. held h.0 h.1.now) result ≡ list_of_will will.now }
{
    match will {
        Some(will) => Some((Holder::Will, &will.props)),
        None => None,
    }
}

fn is_repeated(list: Option<(Holder, &Props)>) -> bool
    ensures { result ≡ if_held is_repeated (option_map (λ h. held h.0 h.1.now) list.entry) }
{
    match list {
        Some((holder, props)) => props.has_repeated(holder),
        None => false,
    }
}

fn is_bad(list: Option<(Holder, &Props)>) -> bool
    ensures { result ≡ if_held is_bad_list (option_map (λ h. held h.0 h.1.now) list.entry) }
{
    match list {
        Some((_, props)) => props.has_bad(),
        None => false,
    }
}

fn is_wild(topic: Option<&Name>) -> bool
    ensures { result ≡ is_wild (option_map (λ n. n.now) topic.entry) }
{
    match topic {
        Some(topic) => has_wildcard(topic.bytes()),
        None => false,
    }
}

// Whether its Response Topic has a wildcard.
fn is_wild_list(list: Option<(Holder, &Props)>) -> bool
    ensures { result ≡ if_held is_wild_list (option_map (λ h. held h.0 h.1.now) list.entry) }
{
    match list {
        Some((_, props)) => is_wild(props.response_topic()),
        None => false,
    }
}

fn repeats(packet: &Packet) -> bool
    ensures { result ≡ in_lists is_repeated (plain packet.now) }
{
    is_repeated(own_list(packet)) || is_repeated(will_list(packet))
}

fn has_bad_value(packet: &Packet) -> bool
    ensures { result ≡ in_lists is_bad_list (plain packet.now) }
{
    is_bad(own_list(packet)) || is_bad(will_list(packet))
}

fn has_wild_response(packet: &Packet) -> bool
    ensures { result ≡ in_lists is_wild_list (plain packet.now) }
{
    is_wild_list(own_list(packet)) || is_wild_list(will_list(packet))
}

// Whether there is Authentication Data without Authentication Method.
fn is_data_alone(props: &Props) -> bool
    ensures { result ≡ is_data_alone props.now }
{
    props.authentication_data().is_some() && props.authentication_method().is_none()
}

fn lacks_method(packet: &Packet) -> bool
    ensures { result ≡ lacks_method (plain packet.now) }
{
    match packet {
        Packet::Connect { props, .. } => is_data_alone(props),
        _ => false,
    }
}

fn lacks_filter(packet: &Packet) -> bool
    ensures { result ≡ lacks_filter (plain packet.now) }
{
    match packet {
        Packet::Subscribe { filters, .. } => filters.is_empty(),
        Packet::Unsubscribe { filters, .. } => filters.is_empty(),
        _ => false,
    }
}

fn is_bad_wish(wish: &Wish) -> bool
    ensures { result ≡ is_bad_wish wish.now }
{
    wish.options % 4 == 3 || wish.options / 16 % 4 == 3
}

fn is_one_bad(wishes: &[Wish]) -> bool
    ensures { result ≡ list_any is_bad_wish wishes.now }
{
    wishes.iter().any(|w| is_bad_wish(w))
}

fn has_bad_options(packet: &Packet) -> bool
    ensures { result ≡ has_bad_options (plain packet.now) }
{
    match packet {
        Packet::Subscribe { filters, .. } => is_one_bad(filters),
        _ => false,
    }
}

// The least rule that a packet breaks, of those that its bytes alone tell (MQTT 4.13.1, Protocol Error).
pub(crate) fn broken_rule(packet: &Packet) -> Option<u8>
    ensures { result ≡ broken_rule (plain packet.now) }
{
    if repeats(packet) {
        Some(REPEATED_PROPERTY)
    } else if has_bad_value(packet) {
        Some(BAD_VALUE)
    } else if lacks_method(packet) {
        Some(NO_AUTHENTICATION_METHOD)
    } else if has_wild_response(packet) {
        Some(WILD_RESPONSE_TOPIC)
    } else if lacks_filter(packet) {
        Some(NO_FILTER)
    } else if has_bad_options(packet) {
        Some(BAD_OPTIONS)
    } else {
        None
    }
}
