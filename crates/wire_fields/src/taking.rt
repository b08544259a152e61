ghost use Rattle.std.specs.Prelude.{◌≡◌, ◌<◌, ◌≤◌, ◌^◌, length, drop, IfOk, IfErr, OnErr, IsErrOf};
ghost use Rattle.wire_fields.specs.Spelled.{spelled_u8, spelled_u16, spelled_u32, spelled_u64, spelled_var, spelled_bin, spelled_text};
ghost use Rattle.wire_fields.specs.Text.{IsText};
ghost use Rattle.wire_fields.specs.Reading.{u8_at, u16_at, u32_at, u64_at, var_at, bin_at, text_at, Takes, Stands, GoesOn, IsRefused};

use crate::cut::Cut;
use crate::putting::{MOST_BIN, MOST_VAR};
use crate::reading::{bin_in, text_in, u8_in, u16_in, u32_in, u64_in, var_in};

/// Takes a byte (MQTT 1.5.1) from the place `at`, and moves `at` behind it. A refusal is `Short`, and leaves `at`.
pub fn take_u8(bytes: &[u8], at: &mut usize) -> Result<u8, Cut>
    // What it gives, computed.
    ensures exact { Takes (λ n. n) result (u8_at (drop at.old bytes.now)) bytes.now at.old at.new }
    // What is taken is spelled so.
    ensures found { IfOk result
        (λ n. (n < 2 ^ 8) × Stands (spelled_u8 n) bytes.now at.old at.new) }
    // It is refused only where more bytes would do.
    ensures short { IfErr result (λ e. (e ≡ Cut.Short) × GoesOn u8_at bytes.now at.old) }
    ensures stays { OnErr result (at.new ≡ at.old) }
{
    u8_in(bytes, at)
}

/// Takes a two byte integer (MQTT 1.5.2) from the place `at`, and moves `at` behind it. A refusal is `Short`, and
/// leaves `at`.
pub fn take_u16(bytes: &[u8], at: &mut usize) -> Result<u16, Cut>
    // What it gives, computed.
    ensures exact { Takes (λ n. n) result (u16_at (drop at.old bytes.now)) bytes.now at.old at.new }
    // What is taken is spelled so.
    ensures found { IfOk result
        (λ n. (n < 2 ^ 16) × Stands (spelled_u16 n) bytes.now at.old at.new) }
    // It is refused only where more bytes would do.
    ensures short { IfErr result (λ e. (e ≡ Cut.Short) × GoesOn u16_at bytes.now at.old) }
    ensures stays { OnErr result (at.new ≡ at.old) }
{
    u16_in(bytes, at)
}

/// Takes a four byte integer (MQTT 1.5.3) from the place `at`, and moves `at` behind it. A refusal is `Short`, and
/// leaves `at`.
pub fn take_u32(bytes: &[u8], at: &mut usize) -> Result<u32, Cut>
    // What it gives, computed.
    ensures exact { Takes (λ n. n) result (u32_at (drop at.old bytes.now)) bytes.now at.old at.new }
    // What is taken is spelled so.
    ensures found { IfOk result
        (λ n. (n < 2 ^ 32) × Stands (spelled_u32 n) bytes.now at.old at.new) }
    // It is refused only where more bytes would do.
    ensures short { IfErr result (λ e. (e ≡ Cut.Short) × GoesOn u32_at bytes.now at.old) }
    ensures stays { OnErr result (at.new ≡ at.old) }
{
    u32_in(bytes, at)
}

/// Takes a number of eight bytes, the highest first, from the place `at`, and moves `at` behind it. A refusal is
/// `Short`, and leaves `at`.
pub fn take_u64(bytes: &[u8], at: &mut usize) -> Result<u64, Cut>
    // What it gives, computed.
    ensures exact { Takes (λ n. n) result (u64_at (drop at.old bytes.now)) bytes.now at.old at.new }
    // What is taken is spelled so.
    ensures found { IfOk result
        (λ n. (n < 2 ^ 64) × Stands (spelled_u64 n) bytes.now at.old at.new) }
    // It is refused only where more bytes would do.
    ensures short { IfErr result (λ e. (e ≡ Cut.Short) × GoesOn u64_at bytes.now at.old) }
    ensures stays { OnErr result (at.new ≡ at.old) }
{
    u64_in(bytes, at)
}

/// Takes a variable byte integer from the place `at`, in its shortest spelling alone, and moves `at` behind it
/// (MQTT 1.5.5). It is `Short` where each byte that is there tells that another follows, and `Bad` in a longer spelling
/// and where a fourth byte tells so. A refusal leaves `at`.
pub fn take_var(bytes: &[u8], at: &mut usize) -> Result<u32, Cut>
    // What it gives, computed.
    ensures exact { Takes (λ n. n) result (var_at (drop at.old bytes.now)) bytes.now at.old at.new }
    // What is taken is spelled so.
    ensures found { IfOk result
        (λ n. (n ≤ MOST_VAR) × Stands (spelled_var n) bytes.now at.old at.new) }
    // More bytes would do.
    ensures short { IsErrOf result Cut.Short → GoesOn var_at bytes.now at.old }
    // No more bytes would.
    ensures bad { IsErrOf result Cut.Bad → IsRefused var_at bytes.now at.old }
    ensures stays { OnErr result (at.new ≡ at.old) }
{
    var_in(bytes, at)
}

/// Takes binary data from the place `at`, a length in two bytes and so many bytes, and moves `at` behind it
/// (MQTT 1.5.6). A refusal is `Short`, and leaves `at`.
pub fn take_bin<'a>(bytes: &'a [u8], at: &mut usize) -> Result<&'a [u8], Cut>
    // What it gives, computed.
    ensures exact { Takes (λ f. f.now) result
        (bin_at (drop at.old bytes.now)) bytes.now at.old at.new }
    // What is taken is spelled so.
    ensures found { IfOk result
        (λ f. (length f.now ≤ MOST_BIN) × Stands (spelled_bin f.now) bytes.now at.old at.new) }
    // It is refused only where more bytes would do.
    ensures short { IfErr result (λ e. (e ≡ Cut.Short) × GoesOn bin_at bytes.now at.old) }
    ensures stays { OnErr result (at.new ≡ at.old) }
{
    bin_in(bytes, at)
}

/// Takes a text from the place `at`, a length in two bytes and so many bytes of UTF-8 without U+0000, and moves `at`
/// behind it (MQTT 1.5.4). Where it is cut, it is `Short` if some bytes would complete it, and else `Bad`. A refusal
/// leaves `at`.
pub fn take_text<'a>(bytes: &'a [u8], at: &mut usize) -> Result<&'a [u8], Cut>
    // What it gives, computed.
    ensures exact { Takes (λ f. f.now) result
        (text_at (drop at.old bytes.now)) bytes.now at.old at.new }
    // What is taken is a text, and spelled so.
    ensures found { IfOk result
        (λ f. (length f.now ≤ MOST_BIN) × Stands (spelled_text f.now) bytes.now at.old at.new) }
    ensures text { IfOk result (λ f. IsText f.now) }
    // More bytes would do.
    ensures short { IsErrOf result Cut.Short → GoesOn text_at bytes.now at.old }
    // No more bytes would.
    ensures bad { IsErrOf result Cut.Bad → IsRefused text_at bytes.now at.old }
    ensures stays { OnErr result (at.new ≡ at.old) }
{
    text_in(bytes, at)
}
