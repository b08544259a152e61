// What lines print.
ghost use Rattle.std.specs.Prelude.{◌≡◌, ◌++◌, OnOk, Some};
ghost use Rattle.packet_lines.specs.Asked.{plain};
ghost use Rattle.packet_lines.specs.Text.{text_of_command, text_of_input, text_of_line};

use crate::command::{Asked, command_of};
use crate::feeding::put_framed;
use crate::lines::first_line;
use crate::listing::put_props;
use crate::packet::put_packet;
use std::alloc::{AllocError, Global};

/// Adds what the lines of an input print, in order.
pub fn put_all(alloc: Global, input: &[u8], out: &mut Vec<u8>) -> Result<(), AllocError>
    ensures { OnOk result (out.new.items ≡ out.old.items ++ text_of_input input.now) }
{
    let mut rest = input;
    'lines: while !rest.is_empty() {
        let (line, behind) = first_line(rest);
        put_line(alloc, line, out)?;
        rest = behind;
    }
    Ok(())
}

// Adds what a line prints.
fn put_line(alloc: Global, line: &[u8], out: &mut Vec<u8>) -> Result<(), AllocError>
    ensures { OnOk result (out.new.items ≡ out.old.items ++ text_of_line line.now) }
{
    match command_of(alloc, line)? {
        None => out.extend_from_slice(b"not a line")?,
        Some(asked) => put_answer(alloc, &asked, out)?,
    }
    Ok(out.push(b'\n')?)
}

// Adds the answer to what a line asks for.
fn put_answer(alloc: Global, asked: &Asked, out: &mut Vec<u8>) -> Result<(), AllocError>
    ensures { OnOk result
        (out.new.items ≡ out.old.items ++ text_of_command (Some (plain asked.now))) }
{
    match asked {
        Asked::Read(bytes) => put_packet(alloc, bytes, out),
        Asked::Feed(limit, pieces) => put_framed(alloc, *limit, pieces, out),
        Asked::Props(holder, bytes) => put_props(alloc, *holder, bytes, out),
    }
}
