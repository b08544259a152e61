// Lists of properties, read and written again.
ghost use Rattle.std.specs.Prelude.{◌≡◌, ◌≤◌, ◌++◌, length, OnOk, IfOk};
ghost use Rattle.mqtt_props.specs.Props.{whole_props, spelled_bare, spelled_props, GivesAs};
ghost use Rattle.packet_lines.specs.Text.{text_of_props, text_of_refusal};

use crate::digits::put_digits;
use mqtt_props::{Holder, PropRefused, Props};
use std::alloc::{AllocError, Global};
use wire_fields::MOST_VAR;

/// Adds the properties of these bytes as they are written, or why they are not read.
pub fn put_props(
    alloc: Global,
    holder: Holder,
    bytes: &[u8],
    out: &mut Vec<u8>,
) -> Result<(), AllocError>
    ensures { OnOk result
        (out.new.items ≡ out.old.items ++ text_of_props (whole_props holder bytes.now)) }
{
    match read_short(alloc, holder, bytes) {
        Ok(props) => put_written(alloc, &props, out),
        Err(PropRefused::Memory) => Err(AllocError),
        Err(refused) => out.extend_from_slice(reason_of(refused)),
    }
}

// Reads a list of properties, which is short enough to be written.
fn read_short(alloc: Global, holder: Holder, bytes: &[u8]) -> Result<Props, PropRefused>
    ensures exact { GivesAs (λ p. p) result (whole_props holder bytes.now) }
    ensures short { IfOk result (λ ps. length (spelled_bare ps) ≤ MOST_VAR) }
{
    mqtt_props::read_was_spelled();
    mqtt_props::order_keeps_all();
    mqtt_props::read(alloc, holder, bytes)
}

// Adds properties as they are written.
fn put_written(alloc: Global, props: &Props, out: &mut Vec<u8>) -> Result<(), AllocError>
    requires { length (spelled_bare props.now) ≤ MOST_VAR }
    ensures { OnOk result (out.new.items ≡ out.old.items ++ text_of_props (Ok props.now)) }
{
    let mut written = Vec::new(alloc);
    mqtt_props::write(props, &mut written)?;
    out.extend_from_slice(b"ok ")?;
    put_digits(alloc, &written, out)
}

// The text for a refusal.
fn reason_of(refused: PropRefused) -> &'static [u8]
    ensures { result.now ≡ text_of_refusal refused }
{
    match refused {
        PropRefused::Unknown => b"unknown",
        PropRefused::Misplaced => b"misplaced",
        PropRefused::Spelling => b"spelling",
        PropRefused::Repeated => b"repeated",
        PropRefused::BadValue => b"bad value",
        PropRefused::Memory => b"",
    }
}
