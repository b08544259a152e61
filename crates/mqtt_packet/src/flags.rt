ghost use Rattle.std.specs.Prelude.{◌≡◌, ◌<◌, ◌^◌, ◌/◌};
ghost use Rattle.mqtt_packet.specs.Reading.{is_odd, flags_in, are_flags, will_flags_in, are_publish_flags};

/// Will QoS and Will Retain of a CONNECT (MQTT 3.1.2.6, 3.1.2.7).
#[derive(Clone, Copy, Debug, PartialEq, Eq)]
pub(crate) struct WillFlags {
    pub(crate) qos: u8,
    pub(crate) retain: bool,
}

/// The flags of a CONNECT: Clean Start, those of the will if it has one, and whether a password and a user name follow
/// (MQTT 3.1.2.3).
#[derive(Clone, Copy, Debug, PartialEq, Eq)]
pub(crate) struct ConnectFlags {
    pub(crate) clean: bool,
    pub(crate) will: Option<WillFlags>,
    pub(crate) password: bool,
    pub(crate) user: bool,
}

// Whether bit 0 is set.
pub(crate) fn is_odd(flags: u8) -> bool
    ensures { result ≡ is_odd flags }
{
    flags % 2 == 1
}

fn will_flags_in(flags: u8) -> Option<WillFlags>
    ensures { result ≡ will_flags_in flags }
{
    if !is_odd(flags / 4) {
        return None;
    }
    Some(WillFlags {
        qos: flags / 8 % 4,
        retain: is_odd(flags / 32),
    })
}

// Whether bit 0 is 0, no QoS is 3, and bits 5 to 3 are 0 where there is no will (MQTT 3.1.2.3, 3.1.2.5 to 3.1.2.7).
fn are_flags(flags: u8) -> bool
    ensures { result ≡ are_flags flags }
{
    let fits = if is_odd(flags / 4) {
        flags / 8 % 4 != 3
    } else {
        flags / 8 % 8 == 0
    };
    !is_odd(flags) && fits
}

pub(crate) fn flags_in(flags: u8) -> Option<ConnectFlags>
    ensures { result ≡ flags_in flags }
{
    if !are_flags(flags) {
        return None;
    }
    Some(ConnectFlags {
        clean: is_odd(flags / 2),
        will: will_flags_in(flags),
        password: is_odd(flags / 64),
        user: is_odd(flags / 128),
    })
}

// No QoS 3, and no DUP with QoS 0 (MQTT 3.3.1.1, 3.3.1.2).
pub(crate) fn are_publish_flags(dup: bool, qos: u8) -> bool
    ensures { result ≡ are_publish_flags dup qos }
{
    qos != 3 && !(dup && qos == 0)
}
