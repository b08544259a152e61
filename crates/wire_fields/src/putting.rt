ghost use Rattle.std.specs.Prelude.{◌≡◌, ◌+◌, ◌<◌, ◌≤◌, ◌++◌, ◌%◌, length, OnOk, OnErr};
ghost use Rattle.wire_fields.specs.Spelled.{spelled_u8, spelled_u16, spelled_u32, spelled_u64, spelled_var, spelled_bin, spelled_text};

use std::alloc::AllocError;

/// The greatest value of a variable byte integer (MQTT 1.5.5).
pub const MOST_VAR: u32 = 268_435_455;

/// The most bytes of a text or of binary data (MQTT 1.5.4, 1.5.6).
pub const MOST_BIN: usize = 65_535;

/// Writes a byte at the end. On want of memory `out` stays as it was.
pub fn put_u8(value: u8, out: &mut Vec<u8>) -> Result<(), AllocError>
    ensures ok { OnOk result (out.new.items ≡ out.old.items ++ spelled_u8 value) }
    ensures err { OnErr result (out.new.items ≡ out.old.items) }
{
    out.extend_from_slice(&[value])
}

/// Writes a two byte integer at the end (MQTT 1.5.2). On want of memory `out` stays as it was.
pub fn put_u16(value: u16, out: &mut Vec<u8>) -> Result<(), AllocError>
    ensures ok { OnOk result (out.new.items ≡ out.old.items ++ spelled_u16 value) }
    ensures err { OnErr result (out.new.items ≡ out.old.items) }
{
    out.extend_from_slice(&value.to_be_bytes())
}

/// Writes a four byte integer at the end (MQTT 1.5.3). On want of memory `out` stays as it was.
pub fn put_u32(value: u32, out: &mut Vec<u8>) -> Result<(), AllocError>
    ensures ok { OnOk result (out.new.items ≡ out.old.items ++ spelled_u32 value) }
    ensures err { OnErr result (out.new.items ≡ out.old.items) }
{
    out.extend_from_slice(&value.to_be_bytes())
}

/// Writes a number of eight bytes at the end. On want of memory `out` stays as it was.
pub fn put_u64(value: u64, out: &mut Vec<u8>) -> Result<(), AllocError>
    ensures ok { OnOk result (out.new.items ≡ out.old.items ++ spelled_u64 value) }
    ensures err { OnErr result (out.new.items ≡ out.old.items) }
{
    out.extend_from_slice(&value.to_be_bytes())
}

/// Writes a variable byte integer at the end, in its shortest spelling (MQTT 1.5.5). On want of memory `out` stays as
/// it was.
pub fn put_var(value: u32, out: &mut Vec<u8>) -> Result<(), AllocError>
    requires { value ≤ MOST_VAR }
    ensures ok { OnOk result (out.new.items ≡ out.old.items ++ spelled_var value) }
    ensures err { OnErr result (out.new.items ≡ out.old.items) }
{
    if value < 128 {
        out.extend_from_slice(&[value as u8])
    } else if value < 16384 {
        out.extend_from_slice(&[low(value), (value / 128) as u8])
    } else if value < 2_097_152 {
        out.extend_from_slice(&[low(value), low(value / 128), (value / 16384) as u8])
    } else {
        out.extend_from_slice(&[
            low(value),
            low(value / 128),
            low(value / 16384),
            (value / 2_097_152) as u8,
        ])
    }
}

// The seven low bits, with bit 7 set.
fn low(value: u32) -> u8
    ensures { result ≡ value % 128 + 128 }
{
    (value % 128 + 128) as u8
}

/// How many bytes `put_var` writes of a value (MQTT 1.5.5).
pub fn var_length(value: u32) -> usize
    ensures size { result ≡ length (spelled_var value) }
    ensures few { (1 ≤ result) × (result ≤ 4) }
{
    if value < 128 {
        1
    } else if value < 16384 {
        2
    } else if value < 2_097_152 {
        3
    } else {
        4
    }
}

/// Writes binary data at the end: its length in two bytes and its bytes (MQTT 1.5.6). On want of memory `out` stays as
/// it was.
pub fn put_bin(value: &[u8], out: &mut Vec<u8>) -> Result<(), AllocError>
    requires { length value.now ≤ MOST_BIN }
    ensures ok { OnOk result (out.new.items ≡ out.old.items ++ spelled_bin value.now) }
    ensures err { OnErr result (out.new.items ≡ out.old.items) }
{
    let before = out.len();
    put_u16(value.len() as u16, out)?;
    if let Err(error) = out.extend_from_slice(value) {
        out.truncate(before);
        return Err(error);
    }
    Ok(())
}

/// Writes a text at the end, as `put_bin` does (MQTT 1.5.4). On want of memory `out` stays as it was.
pub fn put_text(value: &[u8], out: &mut Vec<u8>) -> Result<(), AllocError>
    requires { length value.now ≤ MOST_BIN }
    ensures ok { OnOk result (out.new.items ≡ out.old.items ++ spelled_text value.now) }
    ensures err { OnErr result (out.new.items ≡ out.old.items) }
{
    put_bin(value, out)
}
