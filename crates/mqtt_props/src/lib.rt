//! The properties of MQTT 5.0 packets and wills, read and written (MQTT 2.2.2).
//!
//!     let props = read(alloc, Holder::Publish, &[9, 0x26, 0, 1, b'a', 0, 1, b'b', 1, 1])?;
//!     let expiry = props.message_expiry(); // None
//!     write(&props, &mut out)?; // 9, 1, 1, 0x26, 0, 1, b'a', 0, 1, b'b'
//!
//! A list is read in any order, and kept and written by ascending identifier, equal ones in their order. A refusal is
//! `Unknown`, `Misplaced` or `Spelling`, by what comes first in the bytes, the length in front before all; where none
//! of these stands it is `Repeated`, and else `BadValue`. `take_list` reads what is repeated or has a bad value too, so
//! that a packet is read to its end first: `Props::has_repeated` and `Props::has_bad` tell afterwards. What was written
//! is read again as the same list, and what was read was spelled so. A list may stand without its length in front too,
//! as a stored message keeps it.
//!
//! Read `specs/Table.antt` first, the types of properties and what each may stand in, then `specs/Prop.antt`, how one
//! is spelled, `specs/Reading.antt` and `specs/Props.antt`, how one and a list are read. `specs/Lookup.antt` has the
//! look-ups, and what goes on to subscribers, `specs/Sizes.antt` how many bytes each takes, and `specs/Examples.antt`
//! what computes. The laws for the layers above are in `specs/SpelledLaws.antt`, `FoundLaws.antt`, `ArrangedLaws.antt`
//! (writing order), `KeptLaws.antt` (lists that were changed), `SizeLaws.antt` and `RefusedLaws.antt`; `ListLaws.antt`
//! says that a list which is refused for more than its bytes is read first, and then checked.
#![tactic(auto)]

mod laws;
mod listing;
mod lookup;
mod named;
mod prop;
mod props;
mod reading;
mod refused;
mod table;

pub use laws::{
    changed_lists_fit, checks_come_last, names_are_of_the_table, none_begins_another,
    order_keeps_all, read_was_spelled, refused_for_its_bytes, sizes_are_numbers, spelled_is_read,
    written_is_arranged,
};
pub use prop::{Prop, write_prop};
pub use props::{Props, read, read_bare, take_list, take_props, write, write_bare};
pub use reading::{read_prop, take_blob, take_name};
pub use refused::PropRefused;
pub use table::{
    ASSIGNED_CLIENT_IDENTIFIER, AUTHENTICATION_DATA, AUTHENTICATION_METHOD, CONTENT_TYPE,
    CORRELATION_DATA, Holder, MAXIMUM_PACKET_SIZE, MAXIMUM_QOS, MESSAGE_EXPIRY_INTERVAL,
    PAYLOAD_FORMAT_INDICATOR, REASON_STRING, RECEIVE_MAXIMUM, REQUEST_PROBLEM_INFORMATION,
    REQUEST_RESPONSE_INFORMATION, RESPONSE_INFORMATION, RESPONSE_TOPIC, RETAIN_AVAILABLE,
    SERVER_KEEP_ALIVE, SERVER_REFERENCE, SESSION_EXPIRY_INTERVAL, SHARED_SUBSCRIPTION_AVAILABLE,
    SUBSCRIPTION_IDENTIFIER, SUBSCRIPTION_IDENTIFIER_AVAILABLE, TOPIC_ALIAS, TOPIC_ALIAS_MAXIMUM,
    USER_PROPERTY, ValueType, WILDCARD_SUBSCRIPTION_AVAILABLE, WILL_DELAY_INTERVAL, may_repeat,
    stands_in, value_type,
};
