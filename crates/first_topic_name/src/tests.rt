// Copies with ample memory, and the examples that MQTT gives for filters.
use crate::{Filter, Topic, matches};
use std::alloc::{AllocError, Global};
use std::test::Fail;
use topic_name::Name;

fn topic(alloc: Global, text: &str) -> Result<Topic, AllocError> {
    let name = Name::of(alloc, text)?;
    Ok(Topic::of(name))
}

fn filter(alloc: Global, text: &str) -> Result<Filter, AllocError> {
    let name = Name::of(alloc, text)?;
    Ok(Filter::of(name))
}

#[test]
fn a_topic_is_copied(rt: HostRuntime) -> Result<(), Fail> {
    let topic = topic(rt.alloc(), "room/heat")?;
    let copy = topic.copy()?;
    assert_eq!(rt; copy.name().text(), "room/heat");
    Ok(())
}

#[test]
fn a_filter_is_copied(rt: HostRuntime) -> Result<(), Fail> {
    let filter = filter(rt.alloc(), "room/+")?;
    let copy = filter.copy()?;
    assert_eq!(rt; copy.name().text(), "room/+");
    Ok(())
}

#[test]
fn filters_match_as_in_the_examples_of_mqtt(rt: HostRuntime) -> Result<(), Fail> {
    let alloc = rt.alloc();
    for (wanted, text, answer) in [
        (
            "sport/tennis/player1/#",
            "sport/tennis/player1/score/wimbledon",
            true,
        ),
        ("sport/+", "sport", false),
        ("+/+", "/finance", true),
        ("+/monitor/Clients", "$SYS/monitor/Clients", false),
        ("$SYS/monitor/+", "$SYS/monitor/Clients", true),
    ] {
        let wanted = filter(alloc, wanted)?;
        let topic = topic(alloc, text)?;
        assert_eq!(rt; matches(&wanted, &topic), answer, "at {text}");
    }
    Ok(())
}
