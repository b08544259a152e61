ghost use Rattle.std.specs.Prelude.{◌≡◌, ◌&&◌, false, IfOk, Some};
ghost use Rattle.first_session_core.specs.Delivery.{delivery, loud_kind, no_local_of};
ghost use Rattle.first_session_core.specs.SessionView.{version_of};
ghost use Rattle.std.specs.Str.{bytes_eq};
ghost use Rattle.first_session_core.specs.Pump.{packet_of_kind};

use crate::subscription::Subscription;
use crate::tracks::{first_id, second_id};
use first_mqtt_packet::{Packet, Props};
use first_session_terms::Kind;
use first_topic_name::Message;
use std::alloc::{AllocError, Global};
use topic_name::Name;

/// The PUBLISH that carries a message as an entry of this kind, for the first time (MQTT 3.3).
pub fn make_delivery(
    alloc: Global,
    message: &Message,
    subscription: &Subscription,
    kind: Kind,
) -> Result<Packet, AllocError>
    ensures { IfOk result (λ p. p ≡ delivery false (version_of subscription.now) message.now kind) }
{
    let (qos, id) = match kind {
        Kind::Track1(number) => (1, first_id(number)),
        Kind::Track2(number) => (2, second_id(number)),
        Kind::Zero => (0, 0),
        Kind::Silent => (0, 0),
    };
    let topic = message.topic().name().copy()?;
    let payload = message.body().copy()?;
    Ok(Packet::Publish {
        dup: false,
        qos,
        retain: false,
        topic,
        id,
        props: Props::new(alloc),
        payload,
    })
}

/// The kind by the lesser of the two QoS, with the next numbers of the tracks.
pub fn kind_by_qos(message: &Message, subscription: &Subscription, next1: u64, next2: u64) -> Kind
    ensures value { result ≡ loud_kind (version_of subscription.now) message.now next1 next2 }
    ensures loud { packet_of_kind (version_of subscription.now) message.now result ≡ Some (delivery false (version_of subscription.now) message.now result) }
{
    let qos = message.qos().min(subscription.options % 4);
    if qos == 0 {
        Kind::Zero
    } else if qos == 1 {
        Kind::Track1(next1)
    } else {
        Kind::Track2(next2)
    }
}

/// Whether the message is the client's own, and No Local is set (MQTT 3.8.3.1).
pub fn is_own(client: &Name, message: &Message, subscription: &Subscription) -> bool
    ensures { result ≡ (no_local_of (version_of subscription.now) && bytes_eq message.now.publisher client.now) }
{
    subscription.options / 4 % 2 == 1 && message.publisher().is(client)
}
