//! Tests of the wire layer by its public calls alone, as tables of digits: what is read of them, what is written of
//! that, and why others are refused.
//!
//! Packets: `again_rows` has those that are read and written again, `value_rows` what stands in their fields,
//! `malformed_rows` those that are none, `protocol_rows` those of another version and those that break a rule, and
//! `ack_rows` acknowledgements in five bytes. Properties: `table_rows` has where each may stand, `prop_rows` lists that
//! are read and written, `taken_rows` those inside a packet and lists that are changed, and `lookup_rows` values by
//! their names. `framing_rows` has streams that are cut, and `field_rows` fields at their ends.
//!
//! Values that are wanted are worked out by hand from the MQTT 5.0 standard, whose sections the tables name.
#![tactic(auto)]

#[cfg(test)]
mod ack_rows;
#[cfg(test)]
mod again_rows;
#[cfg(test)]
mod digits;
#[cfg(test)]
mod field_rows;
#[cfg(test)]
mod framing_rows;
#[cfg(test)]
mod lookup_rows;
#[cfg(test)]
mod malformed_rows;
#[cfg(test)]
mod packets;
#[cfg(test)]
mod prop_rows;
#[cfg(test)]
mod props;
#[cfg(test)]
mod protocol_rows;
#[cfg(test)]
mod table_rows;
#[cfg(test)]
mod taken_rows;
#[cfg(test)]
mod value_rows;
