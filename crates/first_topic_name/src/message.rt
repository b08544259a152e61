ghost use Rattle.std.specs.Prelude.{◌≡◌, ◌<◌, None};

use crate::topic::Topic;
use std::marker::Model;
use topic_name::{Blob, Name};

/// A publish as a shard stores it: once, for all sessions. Its offset is below the greatest u64. Contracts see a
/// `StoredMessage`.
#[derive(Debug, Drop)]
pub struct Message {
    offset: u64,
    publisher: Name,
    incarnation: u64,
    id: u16,
    qos: u8,
    stamp: u64,
    topic: Topic,
    props: Blob,
    body: Blob,
}

impl Model for Message {
    ghost use Rattle.std.specs.Prelude.{None, ◌<◌};
    ghost use Rattle.first_topic_name.specs.StoredMessage.{StoredMessage};

    ghost Value = { StoredMessage };

    ghost view = { λ m. record { offset = m.offset; publisher = m.publisher; incarnation = m.incarnation; id = m.id; qos = m.qos; stamp = m.stamp; expiry = None; topic = m.topic; props = m.props; payload = m.body } };

    ghost invariant = { λ m. m.offset < 18446744073709551615 };
}

impl Message {
    /// A message that was published with QoS 0 or 1 and never expires.
    pub fn published(
        offset: u64,
        publisher: Name,
        incarnation: u64,
        qos: u8,
        stamp: u64,
        topic: Topic,
        props: Blob,
        body: Blob,
    ) -> Message
        requires { offset < 18446744073709551615 }
        ensures { result ≡ record { offset = offset; publisher = publisher; incarnation = incarnation; id = 0; qos = qos; stamp = stamp; expiry = None; topic = topic; props = props; payload = body } }
    {
        Message {
            offset,
            publisher,
            incarnation,
            id: 0,
            qos,
            stamp,
            topic,
            props,
            body,
        }
    }

    /// Its place in the shard's list.
    pub fn offset(&self) -> u64
        ensures value { result ≡ self.now.offset }
        ensures below { result < 18446744073709551615 }
    {
        self.offset
    }

    /// The QoS that it was published with: 0 to 2.
    pub fn qos(&self) -> u8
        ensures { result ≡ self.now.qos }
    {
        self.qos
    }

    /// The client identifier of its publisher.
    pub fn publisher(&self) -> &Name
        ensures { result.now ≡ self.now.publisher }
    {
        &self.publisher
    }

    pub fn topic(&self) -> &Topic
        ensures { result.now ≡ self.now.topic }
    {
        &self.topic
    }

    pub fn body(&self) -> &Blob
        ensures { result.now ≡ self.now.payload }
    {
        &self.body
    }
}
