ghost use Rattle.std.specs.Prelude.{◌≡◌, ◌<◌, ◌≤◌, ◌^◌, ◌++◌, ℕ, List, length, Ok};
ghost use Rattle.wire_fields.specs.Spelled.{spelled_u8, spelled_u16, spelled_u32, spelled_u64, spelled_var, spelled_bin, spelled_text};
ghost use Rattle.wire_fields.specs.Text.{IsText};
ghost use Rattle.wire_fields.specs.Reading.{u8_at, u16_at, u32_at, u64_at, var_at, bin_at, text_at};
ghost use Rattle.wire_fields.specs.Fields.{Field, IsField, IsOneKind, spelled};

use crate::putting::{MOST_BIN, MOST_VAR};

/// A law: what is spelled is read again, whatever follows it.
pub fn spelled_is_read()
    ensures u8 { (n : ℕ) (rest : List ℕ) → u8_at (spelled_u8 n ++ rest) ≡ Ok (n, rest) }
    ensures u16 { (n : ℕ) (rest : List ℕ) → n < 2 ^ 16 →
        u16_at (spelled_u16 n ++ rest) ≡ Ok (n, rest) }
    ensures u32 { (n : ℕ) (rest : List ℕ) → n < 2 ^ 32 →
        u32_at (spelled_u32 n ++ rest) ≡ Ok (n, rest) }
    ensures u64 { (n : ℕ) (rest : List ℕ) → n < 2 ^ 64 →
        u64_at (spelled_u64 n ++ rest) ≡ Ok (n, rest) }
    ensures var { (n : ℕ) (rest : List ℕ) → n ≤ MOST_VAR →
        var_at (spelled_var n ++ rest) ≡ Ok (n, rest) }
    ensures bin { (field rest : List ℕ) → length field ≤ MOST_BIN →
        bin_at (spelled_bin field ++ rest) ≡ Ok (field, rest) }
    ensures text { (field rest : List ℕ) → length field ≤ MOST_BIN → IsText field →
        text_at (spelled_text field ++ rest) ≡ Ok (field, rest) }
{}

/// A law: no spelling of a field begins another of the same kind, and one spelling is of one value.
pub fn none_begins_another()
    ensures { (a b : Field) (x y : List ℕ) → IsField a → IsField b → IsOneKind a b →
        spelled a ++ x ≡ spelled b ++ y → (a ≡ b) × (x ≡ y) }
{}
