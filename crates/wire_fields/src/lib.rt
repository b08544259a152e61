//! The fields of which MQTT 5.0 packets are made, read and written (MQTT 1.5): numbers of one, two, four and eight
//! bytes, variable byte integers, texts and binary data.
//!
//!     put_u16(10, &mut out)?;
//!     put_text(b"a/b", &mut out)?;
//!     let mut at = 0;
//!     let number = take_u16(&out, &mut at)?; // 10
//!     let text = take_text(&out, &mut at)?; // b"a/b", and `at` is 7
//!
//! Each value has one spelling. What is read was spelled so, and what was written is read again, whatever follows it. A
//! refusal is `Cut::Short` exactly where more bytes could make a field of what is there, and else `Cut::Bad`; it leaves
//! the place where it was.
//!
//! Read `specs/Spelled.antt` first, how each field is spelled, and then `specs/Text.antt` and `specs/Reading.antt`, how
//! bytes are read. `specs/NumberLaws.antt`, `VarLaws.antt` and `SizedLaws.antt` have the laws for the layers above,
//! `specs/Examples.antt` what computes, and `specs/Computing.antt` the one name to unfold for it.
#![tactic(auto)]

mod cut;
mod laws;
mod putting;
mod reading;
mod taking;
mod texts;

pub use cut::Cut;
pub use laws::{none_begins_another, spelled_is_read};
pub use putting::{
    MOST_BIN, MOST_VAR, put_bin, put_text, put_u8, put_u16, put_u32, put_u64, put_var, var_length,
};
pub use taking::{take_bin, take_text, take_u8, take_u16, take_u32, take_u64, take_var};
