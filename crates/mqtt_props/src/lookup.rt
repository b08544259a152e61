ghost use Rattle.std.specs.Prelude.{◌≡◌, map};
ghost use Rattle.std.specs.Option.{option_map};
ghost use Rattle.mqtt_props.specs.Lookup.{first_of, byte_in, two_in, four_in, var_in, text_in, bin_in, goes_on, forwarded};

use crate::prop::Prop;
use crate::table::{
    CONTENT_TYPE, CORRELATION_DATA, PAYLOAD_FORMAT_INDICATOR, RESPONSE_TOPIC, USER_PROPERTY,
};
use topic_name::{Blob, Name};

// The value of the first of this identifier.
pub(crate) fn byte_of(list: &[Prop], identifier: u8) -> Option<u8>
    ensures { result ≡ first_of (byte_in identifier) list.now }
{
    for prop in list {
        if let Prop::Byte(found, value) = prop {
            if *found == identifier {
                return Some(*value);
            }
        }
    }
    None
}

// The value of the first of this identifier.
pub(crate) fn two_of(list: &[Prop], identifier: u8) -> Option<u16>
    ensures { result ≡ first_of (two_in identifier) list.now }
{
    for prop in list {
        if let Prop::Two(found, value) = prop {
            if *found == identifier {
                return Some(*value);
            }
        }
    }
    None
}

// The value of the first of this identifier.
pub(crate) fn four_of(list: &[Prop], identifier: u8) -> Option<u32>
    ensures { result ≡ first_of (four_in identifier) list.now }
{
    for prop in list {
        if let Prop::Four(found, value) = prop {
            if *found == identifier {
                return Some(*value);
            }
        }
    }
    None
}

// The value of the first of this identifier.
pub(crate) fn text_of(list: &[Prop], identifier: u8) -> Option<&Name>
    ensures { option_map (λ t. t.now) result ≡ first_of (text_in identifier) list.now }
{
    for prop in list {
        if let Prop::Text(found, value) = prop {
            if *found == identifier {
                return Some(value);
            }
        }
    }
    None
}

// The value of the first of this identifier.
pub(crate) fn bin_of(list: &[Prop], identifier: u8) -> Option<&Blob>
    ensures { option_map (λ b. b.now) result ≡ first_of (bin_in identifier) list.now }
{
    for prop in list {
        if let Prop::Bin(found, value) = prop {
            if *found == identifier {
                return Some(value);
            }
        }
    }
    None
}

pub(crate) fn var_of(list: &[Prop]) -> Option<u32>
    ensures { result ≡ first_of var_in list.now }
{
    for prop in list {
        if let Prop::Var(value) = prop {
            return Some(*value);
        }
    }
    None
}

// Whether a server sends a property with this identifier on unaltered.
fn goes_on(identifier: u8) -> bool
    ensures { result ≡ goes_on identifier }
{
    identifier == PAYLOAD_FORMAT_INDICATOR
        || identifier == CONTENT_TYPE
        || identifier == RESPONSE_TOPIC
        || identifier == CORRELATION_DATA
        || identifier == USER_PROPERTY
}

pub(crate) fn keep_forwarded(list: &mut Vec<Prop>)
    ensures { list.new.items ≡ forwarded list.old.items }
{
    list.retain(|p| goes_on(p.identifier()));
}
