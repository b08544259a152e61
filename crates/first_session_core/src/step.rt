ghost use Rattle.std.specs.Prelude.{◌≡◌};
ghost use Rattle.first_session_core.specs.SessionStep.{refusal_of};

use crate::session::Session;
use first_mqtt_packet::Packet;

/// The reason code that the packet closes its connection with, none where it is taken (MQTT 4.13): 0x82 for a second
/// CONNECT, 0x83 for what is not built yet.
pub fn refusal(session: &Session, packet: &Packet) -> Option<u8>
    ensures { result ≡ refusal_of session.now packet.now }
{
    match packet {
        Packet::Connect { .. } => Some(0x82),
        Packet::Publish { .. } => None,
        Packet::Subscribe { .. } => match session.subscription() {
            Some(_) => Some(0x83),
            None => None,
        },
        Packet::Connack { .. } => Some(0x83),
        Packet::Puback { .. } => Some(0x83),
        Packet::Suback { .. } => Some(0x83),
        Packet::Disconnect { .. } => Some(0x83),
    }
}
