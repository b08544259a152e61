// A packet, read and written again.
ghost use Rattle.std.specs.Prelude.{◌≡◌, ◌++◌, OnOk, Ok, Err};
ghost use Rattle.mqtt_packet.specs.Packet.{plain};
ghost use Rattle.mqtt_packet.specs.Answer.{answer};
ghost use Rattle.mqtt_packet.specs.Fits.{IsPacket};
ghost use Rattle.mqtt_packet.specs.declared.refused.ReadRefused.TheVariants.{Protocol};
ghost use Rattle.packet_lines.specs.Text.{text_of_answer};

use crate::digits::put_digits;
use mqtt_packet::{Packet, ReadRefused};
use std::alloc::{AllocError, Global};

/// Adds the packet of these bytes as it is written, or why they are not read.
pub fn put_packet(alloc: Global, bytes: &[u8], out: &mut Vec<u8>) -> Result<(), AllocError>
    ensures { OnOk result (out.new.items ≡ out.old.items ++ text_of_answer (answer bytes.now)) }
{
    match mqtt_packet::read(alloc, bytes) {
        Ok(packet) => put_written(alloc, &packet, out),
        Err(ReadRefused::Version) => out.extend_from_slice(b"version"),
        Err(ReadRefused::Malformed) => out.extend_from_slice(b"malformed"),
        Err(ReadRefused::Protocol(rule)) => put_rule(alloc, rule, out),
        Err(ReadRefused::Memory) => Err(AllocError),
    }
}

// Adds a packet as it is written.
fn put_written(alloc: Global, packet: &Packet, out: &mut Vec<u8>) -> Result<(), AllocError>
    requires { IsPacket (plain packet.now) }
    ensures { OnOk result
        (out.new.items ≡ out.old.items ++ text_of_answer (Ok (plain packet.now))) }
{
    let mut written = Vec::new(alloc);
    mqtt_packet::write(packet, &mut written)?;
    out.extend_from_slice(b"ok ")?;
    put_digits(alloc, &written, out)
}

// Adds the number of a rule of the protocol that is broken.
fn put_rule(alloc: Global, rule: u8, out: &mut Vec<u8>) -> Result<(), AllocError>
    ensures { OnOk result (out.new.items ≡ out.old.items ++ text_of_answer (Err (Protocol rule))) }
{
    let number = rule.to_string(alloc)?;
    out.extend_from_slice(b"protocol ")?;
    out.extend_from_slice(number.as_bytes())
}
