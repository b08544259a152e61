// Texts that are no topic name and no topic filter, those at their edges, and where a client's identifier leads.
use std::alloc::{AllocError, Global};
use std::process::Abort;
use std::test::Fail;
use topic_name::{Filter, FilterRefused, Name, Topic, TopicRefused, shard_of, worker_of};

// A text so many times.
fn times(alloc: Global, text: &str, count: usize) -> Result<String, AllocError> {
    let mut all = String::new(alloc);
    for _ in 0..count {
        all.push_str(text)?;
    }
    Ok(all)
}

fn topic_refused(alloc: Global, text: &str) -> Option<TopicRefused> {
    match Topic::read(alloc, text) {
        Ok(_) => None,
        Err(refused) => Some(refused),
    }
}

fn filter_refused(alloc: Global, text: &str) -> Option<FilterRefused> {
    match Filter::read(alloc, text) {
        Ok(_) => None,
        Err(refused) => Some(refused),
    }
}

fn check_topics(
    rt: &impl Abort,
    alloc: Global,
    rows: &[(&str, Option<TopicRefused>)],
) -> Result<(), Fail> {
    for (text, refused) in rows {
        assert_eq!(rt; topic_refused(alloc, text), *refused, "at {text}");
    }
    Ok(())
}

fn check_filters(
    rt: &impl Abort,
    alloc: Global,
    rows: &[(&str, Option<FilterRefused>)],
) -> Result<(), Fail> {
    for (text, refused) in rows {
        assert_eq!(rt; filter_refused(alloc, text), *refused, "at {text}");
    }
    Ok(())
}

// A topic name has 1 to 128 levels and no wildcard (MQTT 4.7.1, 4.7.3). What it lacks first is refused.
#[test]
fn topics_are_refused_at_their_edges(rt: HostRuntime) -> Result<(), Fail> {
    let most = times(rt.alloc(), "/", 127)?;
    let more = times(rt.alloc(), "/", 128)?;
    let wild = times(rt.alloc(), "/+", 128)?;
    check_topics(
        &rt,
        rt.alloc(),
        &[
            ("", Some(TopicRefused::Empty)),
            ("/", None),
            ("$SYS/a", None),
            ("a\u{0}b", Some(TopicRefused::Zero)),
            ("+\u{0}", Some(TopicRefused::Zero)),
            ("+", Some(TopicRefused::Wild)),
            ("a/b+", Some(TopicRefused::Wild)),
            ("a#", Some(TopicRefused::Wild)),
            (&most, None),
            (&more, Some(TopicRefused::TooManyLevels)),
            (&wild, Some(TopicRefused::Wild)),
        ],
    )
}

// A filter has at most 1,024 bytes and 128 levels; a wildcard stands alone in its level, and `#` in the last (MQTT 4.7.1).
#[test]
fn filters_are_refused_at_their_edges(rt: HostRuntime) -> Result<(), Fail> {
    let longest = times(rt.alloc(), "a", 1_024)?;
    let longer = times(rt.alloc(), "a", 1_025)?;
    let most = times(rt.alloc(), "/", 127)?;
    let more = times(rt.alloc(), "/", 128)?;
    let long_and_many = times(rt.alloc(), "/", 1_025)?;
    check_filters(
        &rt,
        rt.alloc(),
        &[
            ("", Some(FilterRefused::Empty)),
            ("#", None),
            ("+/+/#", None),
            ("a\u{0}", Some(FilterRefused::Zero)),
            (&longest, None),
            (&longer, Some(FilterRefused::TooLong)),
            (&most, None),
            (&more, Some(FilterRefused::TooManyLevels)),
            (&long_and_many, Some(FilterRefused::TooLong)),
            ("a+", Some(FilterRefused::BadPlus)),
            ("a/++/b", Some(FilterRefused::BadPlus)),
            ("a+/b#", Some(FilterRefused::BadPlus)),
            ("#/a", Some(FilterRefused::BadHash)),
            ("a/b#", Some(FilterRefused::BadHash)),
        ],
    )
}

// The SHA-256 of `abc` begins with BA7816BF 8F01CFEA 414140DE 5DAE2223 (FIPS 180-4): its first eight bytes say the shard, the next
// eight the worker.
#[test]
fn a_client_goes_where_its_hash_says(rt: HostRuntime) -> Result<(), Fail> {
    let client = Name::of(rt.alloc(), "abc")?;
    for (shards, shard) in [(1, 0), (2, 0), (8, 2)] {
        assert_eq!(rt; shard_of(&client, shards), shard, "of {shards} shards");
    }
    for (workers, worker) in [(1, 0), (2, 1), (16, 3)] {
        assert_eq!(rt; worker_of(&client, workers), worker, "of {workers} workers");
    }
    Ok(())
}
