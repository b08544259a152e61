// The table of properties: their types, where each may stand, and which may stand twice (MQTT 2.2.2.2).
use crate::digits::{bytes_of, without_blanks};
use crate::props::{answer, bare_answer};
use mqtt_props::{Holder, may_repeat, stands_in, value_type};
use std::alloc::{AllocError, Global};
use std::process::Abort;
use std::test::Fail;

const HOLDERS: [Holder; 16] = [
    Holder::Connect,
    Holder::Connack,
    Holder::Publish,
    Holder::Puback,
    Holder::Pubrec,
    Holder::Pubrel,
    Holder::Pubcomp,
    Holder::Subscribe,
    Holder::Suback,
    Holder::Unsubscribe,
    Holder::Unsuback,
    Holder::Pingreq,
    Holder::Pingresp,
    Holder::Disconnect,
    Holder::Auth,
    Holder::Will,
];

const MESSAGE: &[Holder] = &[Holder::Publish, Holder::Will];

const CONNECTION: &[Holder] = &[Holder::Connect, Holder::Connack];

const EXPIRY: &[Holder] = &[Holder::Connect, Holder::Connack, Holder::Disconnect];

const AUTHENTICATION: &[Holder] = &[Holder::Connect, Holder::Connack, Holder::Auth];

const REASON: &[Holder] = &[
    Holder::Connack,
    Holder::Puback,
    Holder::Pubrec,
    Holder::Pubrel,
    Holder::Pubcomp,
    Holder::Suback,
    Holder::Unsuback,
    Holder::Disconnect,
    Holder::Auth,
];

const USER: &[Holder] = &[
    Holder::Connect,
    Holder::Connack,
    Holder::Publish,
    Holder::Will,
    Holder::Puback,
    Holder::Pubrec,
    Holder::Pubrel,
    Holder::Pubcomp,
    Holder::Subscribe,
    Holder::Suback,
    Holder::Unsubscribe,
    Holder::Unsuback,
    Holder::Disconnect,
    Holder::Auth,
];

// Table 2-4 of MQTT 2.2.2.2: the type of each property, a sample of it, and where it may stand.
const TABLE: [(&str, &str, &[Holder]); 27] = [
    ("OneByte", "01 01", MESSAGE),
    ("FourBytes", "02 0000003c", MESSAGE),
    ("OneText", "03 0001 74", MESSAGE),
    ("OneText", "08 0001 72", MESSAGE),
    ("Binary", "09 0002 00ff", MESSAGE),
    ("Variable", "0b 8001", &[Holder::Publish, Holder::Subscribe]),
    ("FourBytes", "11 00000000", EXPIRY),
    ("OneText", "12 0001 63", &[Holder::Connack]),
    ("TwoBytes", "13 0000", &[Holder::Connack]),
    ("OneText", "15 0001 6d", AUTHENTICATION),
    ("Binary", "16 0000", AUTHENTICATION),
    ("OneByte", "17 00", &[Holder::Connect]),
    ("FourBytes", "18 ffffffff", &[Holder::Will]),
    ("OneByte", "19 01", &[Holder::Connect]),
    ("OneText", "1a 0001 72", &[Holder::Connack]),
    (
        "OneText",
        "1c 0001 73",
        &[Holder::Connack, Holder::Disconnect],
    ),
    ("OneText", "1f 0000", REASON),
    ("TwoBytes", "21 ffff", CONNECTION),
    ("TwoBytes", "22 0000", CONNECTION),
    ("TwoBytes", "23 0001", &[Holder::Publish]),
    ("OneByte", "24 01", &[Holder::Connack]),
    ("OneByte", "25 00", &[Holder::Connack]),
    ("TwoTexts", "26 0001 61 0000", USER),
    ("FourBytes", "27 00000001", CONNECTION),
    ("OneByte", "28 00", &[Holder::Connack]),
    ("OneByte", "29 01", &[Holder::Connack]),
    ("OneByte", "2a 00", &[Holder::Connack]),
];

// `stands` where the sample is read and written again behind its length, else why it was not read.
fn standing(alloc: Global, holder: Holder, sample: &str) -> Result<String, Fail> {
    let digits = without_blanks(alloc, sample)?;
    let size = digits.len() / 2;
    let sized = format!(in alloc; "{size:02x}{digits}")?;
    let given = answer(alloc, holder, &sized)?;
    if given == sized {
        return Ok(format!(in alloc; "stands")?);
    }
    Ok(given)
}

fn check_holders(
    rt: &impl Abort,
    alloc: Global,
    all: &[Holder],
    sample: &str,
    holders: &[Holder],
) -> Result<(), Fail> {
    let identifier = first_of(alloc, sample)?;
    for holder in all {
        let stands = holders.contains(holder);
        let wanted = if stands { "stands" } else { "Misplaced" };
        let given = standing(alloc, *holder, sample)?;
        assert_eq!(rt; given.as_str(), wanted, "{sample} in {holder:?}");
        assert_eq!(rt;
            stands_in(identifier, *holder),
            stands,
            "{sample} in {holder:?}"
        );
    }
    Ok(())
}

fn check_table(
    rt: &impl Abort,
    alloc: Global,
    rows: &[(&str, &str, &[Holder])],
) -> Result<(), Fail> {
    for (_, sample, holders) in rows {
        check_holders(rt, alloc, &HOLDERS, sample, holders)?;
    }
    Ok(())
}

#[test]
fn each_property_stands_where_the_table_says(rt: HostRuntime) -> Result<(), Fail> {
    check_table(&rt, rt.alloc(), &TABLE)
}

// The first byte of the digits.
fn first_of(alloc: Global, digits: &str) -> Result<u8, Fail> {
    let bytes = bytes_of(alloc, digits)?;
    match bytes.first() {
        Some(first) => Ok(*first),
        None => Err(Fail::from("no digits")),
    }
}

fn type_of(alloc: Global, identifier: u8) -> Result<String, AllocError> {
    match value_type(identifier) {
        Some(value) => format!(in alloc; "{value:?}"),
        None => format!(in alloc; "none"),
    }
}

fn check_types(
    rt: &impl Abort,
    alloc: Global,
    rows: &[(&str, &str, &[Holder])],
) -> Result<(), Fail> {
    for (wanted, sample, _) in rows {
        let identifier = first_of(alloc, sample)?;
        let given = type_of(alloc, identifier)?;
        assert_eq!(rt; given.as_str(), *wanted, "at {identifier}");
    }
    Ok(())
}

// How many identifiers have a type.
fn types() -> usize {
    let mut count: usize = 0;
    for identifier in 0..=255 {
        if value_type(identifier).is_some() {
            count = count.saturating_add(1);
        }
    }
    count
}

#[test]
fn each_property_has_the_type_of_the_table(rt: HostRuntime) -> Result<(), Fail> {
    assert_eq!(rt; types(), 27);
    check_types(&rt, rt.alloc(), &TABLE)
}

// MQTT 3.1.2.11.8 and with each list: User Properties; MQTT 3.3.2.3.8: Subscription Identifiers of a PUBLISH.
fn is_free(identifier: u8, holder: Holder) -> bool {
    identifier == 0x26 || (identifier == 0x0b && holder == Holder::Publish)
}

// `free` where the sample may stand twice, else why not. There is no length in front.
fn twice(alloc: Global, holder: Holder, sample: &str) -> Result<String, Fail> {
    let digits = without_blanks(alloc, &format!(in alloc; "{sample}{sample}")?)?;
    let given = bare_answer(alloc, holder, &digits)?;
    if given == digits {
        return Ok(format!(in alloc; "free")?);
    }
    Ok(given)
}

fn check_twice(
    rt: &impl Abort,
    alloc: Global,
    sample: &str,
    holders: &[Holder],
) -> Result<(), Fail> {
    let identifier = first_of(alloc, sample)?;
    for holder in holders {
        let free = is_free(identifier, *holder);
        let wanted = if free { "free" } else { "Repeated" };
        let given = twice(alloc, *holder, sample)?;
        assert_eq!(rt; given.as_str(), wanted, "{sample} in {holder:?}");
        assert_eq!(rt;
            may_repeat(identifier, *holder),
            free,
            "{sample} in {holder:?}"
        );
    }
    Ok(())
}

fn check_each_twice(
    rt: &impl Abort,
    alloc: Global,
    rows: &[(&str, &str, &[Holder])],
) -> Result<(), Fail> {
    for (_, sample, holders) in rows {
        check_twice(rt, alloc, sample, holders)?;
    }
    Ok(())
}

#[test]
fn a_property_stands_once_but_for_two(rt: HostRuntime) -> Result<(), Fail> {
    check_each_twice(&rt, rt.alloc(), &TABLE)
}
