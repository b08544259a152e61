ghost use Rattle.std.specs.Prelude.{◌≡◌, ◌+◌, ◌<◌, ◌≤◌, length};
ghost use Rattle.std.specs.Str.{is_utf8};
ghost use Rattle.wire_fields.specs.Text.{is_text, has_no_zero, begins_text, begins_utf8, ends_within, char_width};

use simdutf8::compat;

// Whether the bytes are UTF-8 without U+0000.
pub(crate) fn is_text(bytes: &[u8]) -> bool
    ensures { result ≡ is_text bytes.now }
{
    is_utf8(bytes) && has_no_zero(bytes)
}

fn is_utf8(bytes: &[u8]) -> bool
    ensures { result ≡ is_utf8 bytes.now }
{
    match compat::from_utf8(bytes) {
        Ok(_) => true,
        Err(_) => false,
    }
}

fn has_no_zero(bytes: &[u8]) -> bool
    ensures { result ≡ has_no_zero bytes.now }
{
    bytes.iter().all(|b| 0 < *b)
}

// Whether some text begins with these bytes and has so many more.
pub(crate) fn begins_text(bytes: &[u8], more: usize) -> bool
    ensures { result ≡ begins_text bytes.now more }
{
    has_no_zero(bytes) && begins_utf8(bytes, more)
}

// The same of UTF-8.
fn begins_utf8(bytes: &[u8], more: usize) -> bool
    ensures { result ≡ begins_utf8 bytes.now more }
{
    match compat::from_utf8(bytes) {
        Ok(_) => true,
        Err(fault) => match fault.error_len() {
            Some(_) => false,
            None => ends_within(&bytes[fault.valid_up_to()..], more),
        },
    }
}

// Whether a character that the bytes begin ends within so many more.
fn ends_within(bytes: &[u8], more: usize) -> bool
    requires { 0 < length bytes.now }
    ensures { result ≡ ends_within bytes.now more }
{
    let width = char_width(bytes[0]);
    width <= bytes.len() || width - bytes.len() <= more
}

fn char_width(first: u8) -> usize
    ensures { result ≡ char_width first }
{
    if first < 224 {
        2
    } else if first < 240 {
        3
    } else {
        4
    }
}
