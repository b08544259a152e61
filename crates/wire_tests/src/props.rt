// What lists of properties are read as, and how they are written again.
use crate::digits::bytes_of;
use mqtt_props::{Holder, PropRefused, Props, read, read_bare, write, write_bare};
use std::alloc::Global;
use std::test::Fail;

/// The digits of the list as it is written again, or why it was not read. Its length stands in front.
pub(crate) fn answer(alloc: Global, holder: Holder, digits: &str) -> Result<String, Fail> {
    let bytes = bytes_of(alloc, digits)?;
    match read(alloc, holder, &bytes) {
        Ok(props) => written(alloc, &props),
        Err(refused) => refusal(alloc, refused),
    }
}

fn written(alloc: Global, props: &Props) -> Result<String, Fail> {
    let mut out = Vec::new(alloc);
    if props.length().is_none() {
        return Err(Fail::from("too long"));
    }
    write(props, &mut out)?;
    if props.written_length() != out.len() {
        return Err(Fail::from("another length"));
    }
    Ok(hex::encode(alloc, out)?)
}

/// The same without the length in front.
pub(crate) fn bare_answer(alloc: Global, holder: Holder, digits: &str) -> Result<String, Fail> {
    let bytes = bytes_of(alloc, digits)?;
    match read_bare(alloc, holder, &bytes) {
        Ok(props) => {
            let mut out = Vec::new(alloc);
            write_bare(&props, &mut out)?;
            Ok(hex::encode(alloc, out)?)
        }
        Err(refused) => refusal(alloc, refused),
    }
}

fn refusal(alloc: Global, refused: PropRefused) -> Result<String, Fail> {
    if refused == PropRefused::Memory {
        return Err(Fail::from("out of memory"));
    }
    Ok(format!(in alloc; "{refused:?}")?)
}
