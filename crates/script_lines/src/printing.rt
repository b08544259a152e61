ghost use Rattle.std.specs.Prelude.{◌≡◌, ◌++◌, OnOk};
ghost use Rattle.std.specs.Fmt.{decimal};
ghost use Rattle.hex.specs.Hex.{encode_upper};
ghost use Rattle.first_world_terms.specs.Move.{Sent, Closed};
ghost use Rattle.first_world_terms.specs.Text.{text_of_out};

use first_mqtt_packet::Packet;
use std::alloc::{AllocError, Global};

/// Adds the line that is printed for a packet on a connection.
pub fn put_sent(
    alloc: Global,
    connection: u16,
    packet: &Packet,
    out: &mut Vec<u8>,
) -> Result<(), AllocError>
    ensures { OnOk result (out.new.items ≡ out.old.items ++ text_of_out (Sent connection packet.now)) }
{
    let mut bytes = Vec::new(alloc);
    first_mqtt_packet::write(alloc, packet, &mut bytes)?;
    put_number(alloc, connection, out)?;
    out.extend_from_slice(b"< ")?;
    put_digits(&bytes, out)?;
    Ok(out.push(b'\n')?)
}

/// Adds the line that is printed for a close by the server.
pub fn put_closed(alloc: Global, connection: u16, out: &mut Vec<u8>) -> Result<(), AllocError>
    ensures { OnOk result (out.new.items ≡ out.old.items ++ text_of_out (Closed connection)) }
{
    put_number(alloc, connection, out)?;
    out.extend_from_slice(b" closed")?;
    Ok(out.push(b'\n')?)
}

fn put_number(alloc: Global, number: u16, out: &mut Vec<u8>) -> Result<(), AllocError>
    ensures { OnOk result (out.new.items ≡ out.old.items ++ decimal number) }
{
    let text = number.to_string(alloc)?;
    out.extend_from_slice(text.as_bytes())
}

const DIGITS: &[u8; 16] = b"0123456789ABCDEF";

// Two digits for each byte.
fn put_digits(bytes: &[u8], out: &mut Vec<u8>) -> Result<(), AllocError>
    ensures { OnOk result (out.new.items ≡ out.old.items ++ encode_upper bytes.now) }
{
    for b in bytes {
        out.push(DIGITS[(*b / 16) as usize])?;
        out.push(DIGITS[(*b % 16) as usize])?;
    }
    Ok(())
}
