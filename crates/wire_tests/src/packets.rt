// What packets are read as, and how they are written again.
ghost use Rattle.mqtt_packet.specs.Packet.{plain};
ghost use Rattle.mqtt_packet.specs.Fits.{IsPacket};

use crate::digits::{bytes_of, without_blanks};
use mqtt_packet::{Packet, ReadRefused, read, write, written_length};
use std::alloc::{AllocError, Global};
use std::process::Abort;
use std::test::Fail;

/// The digits of the packet as it is written again, or why it was not read.
pub(crate) fn answer(alloc: Global, digits: &str) -> Result<String, Fail> {
    let bytes = bytes_of(alloc, digits)?;
    match read(alloc, &bytes) {
        Ok(packet) => {
            let digits = written(alloc, &packet);
            drop(packet);
            Ok(digits?)
        }
        Err(refused) => refusal(alloc, refused),
    }
}

// No digits where `written_length` tells another length.
#[tactic(auto, using(mqtt_packet::specs::ToldLaws::lists_are_told))]
fn written(alloc: Global, packet: &Packet) -> Result<String, AllocError>
    requires { IsPacket (plain packet.now) }
{
    let mut out = Vec::new(alloc);
    write(packet, &mut out)?;
    if written_length(packet) != Some(out.len() as u32) {
        out.clear();
    }
    hex::encode(alloc, out)
}

fn refusal(alloc: Global, refused: ReadRefused) -> Result<String, Fail> {
    if refused == ReadRefused::Memory {
        return Err(Fail::from("out of memory"));
    }
    Ok(format!(in alloc; "{refused:?}")?)
}

/// Each row is the digits that are read, and those that are written of the packet, or why it was refused.
pub(crate) fn check_rows(
    rt: &impl Abort,
    alloc: Global,
    rows: &[(&str, &str)],
) -> Result<(), Fail> {
    for (read, wanted) in rows {
        let wanted = without_blanks(alloc, wanted)?;
        assert_eq!(rt; answer(alloc, read)?, wanted, "at {read}");
    }
    Ok(())
}

/// Each row is the digits of a packet that is written as it is read.
pub(crate) fn check_same(rt: &impl Abort, alloc: Global, rows: &[&str]) -> Result<(), Fail> {
    for digits in rows {
        let wanted = without_blanks(alloc, digits)?;
        assert_eq!(rt; answer(alloc, digits)?, wanted, "at {digits}");
    }
    Ok(())
}

/// Each row is the digits of a packet that is refused for this reason.
pub(crate) fn check_refused(
    rt: &impl Abort,
    alloc: Global,
    reason: &str,
    rows: &[&str],
) -> Result<(), Fail> {
    for digits in rows {
        assert_eq!(rt; answer(alloc, digits)?.as_str(), reason, "at {digits}");
    }
    Ok(())
}
