// A shard's list as a text: its offsets, each message by publisher, identifier, QoS and topic, and how many identifiers are awaited.
use shard_index::Index;
use std::alloc::{AllocError, Global};
use topic_name::Message;

fn put_message(alloc: Global, message: &Message, text: &mut String) -> Result<(), AllocError> {
    let one = format!(in alloc;
        " {}#{} q{} {} {}",
        message.publisher.text(),
        message.id,
        message.qos,
        message.topic.text(),
        message.payload_len()
    )?;
    text.push_str(&one)
}

/// What the list has.
pub(crate) fn shown(alloc: Global, index: &Index) -> Result<String, AllocError> {
    let mut text = format!(in alloc; "{}..{}", index.floor(), index.next_offset())?;
    for offset in index.floor()..index.next_offset() {
        if let Some(message) = index.message(offset) {
            put_message(alloc, message, &mut text)?;
        }
    }
    let awaited = format!(in alloc; " awaited {}", index.awaited_count())?;
    text.push_str(&awaited)?;
    Ok(text)
}
