ghost use Rattle.std.specs.Prelude.{◌≡◌, ◌+◌, ◌<◌, ◌≤◌, length, take, drop, IfOk, IfErr};
ghost use Rattle.wire_fields.specs.VarLaws.{room};
ghost use Rattle.wire_fields.specs.Reading.{u8_at, u16_at, u32_at, u64_at, var_at, var_within, bin_at, text_at, bytes_of, text_of, Takes, Gives};

use crate::cut::Cut;
use crate::texts::{begins_text, is_text};

// The most bytes of a variable byte integer (MQTT 1.5.5).
const VAR_PLACES: u32 = 4;

// The bytes from a place on: none where the place is past the end.
fn rest_of(bytes: &[u8], at: usize) -> &[u8]
    ensures { result.now ≡ drop at bytes.now }
{
    &bytes[at.min(bytes.len())..]
}

// So many bytes from a place on.
fn front(bytes: &[u8], at: usize, size: usize) -> Result<&[u8], Cut>
    requires { 0 < size }
    ensures ok { IfOk result
        (λ f. (f.now ≡ take size (drop at bytes.now)) × (at + size ≤ length bytes.now)) }
    ensures err { IfErr result (λ e. (e ≡ Cut.Short) × (length (drop at bytes.now) < size)) }
{
    let rest = rest_of(bytes, at);
    if rest.len() < size {
        return Err(Cut::Short);
    }
    Ok(&rest[..size])
}

pub(crate) fn u8_in(bytes: &[u8], at: &mut usize) -> Result<u8, Cut>
    ensures { Takes (λ n. n) result (u8_at (drop at.old bytes.now)) bytes.now at.old at.new }
{
    let field = front(bytes, *at, 1)?;
    *at += 1;
    Ok(field[0])
}

pub(crate) fn u16_in(bytes: &[u8], at: &mut usize) -> Result<u16, Cut>
    ensures { Takes (λ n. n) result (u16_at (drop at.old bytes.now)) bytes.now at.old at.new }
{
    let field = front(bytes, *at, 2)?;
    *at += 2;
    Ok(u16::from_be_bytes([field[0], field[1]]))
}

pub(crate) fn u32_in(bytes: &[u8], at: &mut usize) -> Result<u32, Cut>
    ensures { Takes (λ n. n) result (u32_at (drop at.old bytes.now)) bytes.now at.old at.new }
{
    let field = front(bytes, *at, 4)?;
    *at += 4;
    Ok(u32::from_be_bytes([field[0], field[1], field[2], field[3]]))
}

pub(crate) fn u64_in(bytes: &[u8], at: &mut usize) -> Result<u64, Cut>
    ensures { Takes (λ n. n) result (u64_at (drop at.old bytes.now)) bytes.now at.old at.new }
{
    let f = front(bytes, *at, 8)?;
    *at += 8;
    Ok(u64::from_be_bytes([f[0], f[1], f[2], f[3], f[4], f[5], f[6], f[7]]))
}

pub(crate) fn var_in(bytes: &[u8], at: &mut usize) -> Result<u32, Cut>
    ensures { Takes (λ n. n) result (var_at (drop at.old bytes.now)) bytes.now at.old at.new }
{
    let (value, behind) = var_within(rest_of(bytes, *at), VAR_PLACES)?;
    *at = bytes.len() - behind.len();
    Ok(value)
}

// A variable byte integer in at most so many bytes, and what stands behind it. Only in the first byte is 0 the last.
fn var_within(bytes: &[u8], places: u32) -> Result<(u32, &[u8]), Cut>
    requires { places ≤ VAR_PLACES }
    ensures exact { Gives (λ found. (found.0, found.1.now)) result (var_within places bytes.now) }
    ensures small { IfOk result (λ found. found.0 < room places) }
    ensures within { IfOk result (λ found. length found.1.now ≤ length bytes.now) }
{
    if places == 0 {
        return Err(Cut::Bad);
    }
    match bytes {
        [] => Err(Cut::Short),
        [last, behind @ ..] if *last < 128 => Ok((u32::from(*last), behind)),
        [low, behind @ ..] => {
            let (high, rest) = var_within(behind, places - 1)?;
            if high == 0 {
                return Err(Cut::Bad);
            }
            Ok((u32::from(*low - 128) + 128 * high, rest))
        }
    }
}

pub(crate) fn bin_in<'a>(bytes: &'a [u8], at: &mut usize) -> Result<&'a [u8], Cut>
    ensures { Takes (λ f. f.now) result (bin_at (drop at.old bytes.now)) bytes.now at.old at.new }
{
    let mut behind = *at;
    let size = usize::from(u16_in(bytes, &mut behind)?);
    let field = bytes_of(&bytes[behind..], size)?;
    *at = behind + size;
    Ok(field)
}

// So many bytes at the front.
fn bytes_of(bytes: &[u8], size: usize) -> Result<&[u8], Cut>
    ensures exact { Gives (λ f. (f.now, drop size bytes.now)) result (bytes_of size bytes.now) }
    ensures within { IfOk result (λ f. size ≤ length bytes.now) }
{
    if size <= bytes.len() {
        Ok(&bytes[..size])
    } else {
        Err(Cut::Short)
    }
}

pub(crate) fn text_in<'a>(bytes: &'a [u8], at: &mut usize) -> Result<&'a [u8], Cut>
    ensures { Takes (λ f. f.now) result (text_at (drop at.old bytes.now)) bytes.now at.old at.new }
{
    let mut behind = *at;
    let size = usize::from(u16_in(bytes, &mut behind)?);
    let text = text_of(&bytes[behind..], size)?;
    *at = behind + size;
    Ok(text)
}

// A text of so many bytes at the front.
fn text_of(bytes: &[u8], size: usize) -> Result<&[u8], Cut>
    ensures exact { Gives (λ f. (f.now, drop size bytes.now)) result (text_of size bytes.now) }
    ensures within { IfOk result (λ f. size ≤ length bytes.now) }
{
    if size <= bytes.len() {
        let text = &bytes[..size];
        return if is_text(text) {
            Ok(text)
        } else {
            Err(Cut::Bad)
        };
    }
    if begins_text(bytes, size - bytes.len()) {
        return Err(Cut::Short);
    }
    Err(Cut::Bad)
}
