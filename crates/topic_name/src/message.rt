ghost use Rattle.std.specs.Prelude.{◌≡◌, length, IfOk};

use crate::{Blob, Body, Name, Topic};
use std::alloc::AllocError;
use std::marker::Model;

/// A publish as a shard keeps it: once, for all sessions. Contracts see what was stored, and beside it where the body
/// lies if it is cold. A cold body has the payload that was stored.
#[derive(Drop)]
pub struct Message {
    /// Its place in the shard's list.
    pub offset: u64,
    /// The client identifier of its publisher.
    pub publisher: Name,
    /// The number of its publisher's session.
    pub incarnation: u64,
    /// Its packet identifier where the QoS is 2, else 0 (MQTT 3.3.2.2).
    pub id: u16,
    /// Its QoS: 0 to 2.
    pub qos: u8,
    /// When it was stored, in milliseconds.
    pub stamp: u64,
    /// Its Message Expiry Interval in seconds, none for ever (MQTT 3.3.2.3.3).
    pub expiry: Option<u32>,
    /// Its topic name.
    pub topic: Topic,
    /// The properties that go on to subscribers, as a list without its length in front (MQTT 3.3.2.3).
    pub props: Blob,
    /// Its payload.
    pub body: Body,
}

impl Model for Message {
    ghost use Rattle.topic_name.specs.KeptMessage.{KeptMessage};

    ghost Value = { KeptMessage };

    ghost use Rattle.topic_name.specs.BodyView.{payload_of, place_of, HasItsLength};

    ghost view = { λ m. record {
      stored = record {
        offset = m.offset;
        publisher = m.publisher;
        incarnation = m.incarnation;
        id = m.id;
        qos = m.qos;
        stamp = m.stamp;
        expiry = m.expiry;
        topic = m.topic;
        props = m.props;
        payload = payload_of m.body;
      };
      place = place_of m.body;
    } };

    ghost invariant = { λ m. HasItsLength m.body };
}

impl Message {
    /// How many bytes its payload has, wherever it lies.
    pub fn payload_len(&self) -> usize
        ensures { result ≡ length self.now.stored.payload }
    {
        self.body.len()
    }

    /// One more message like it. The payload and the properties are shared.
    pub fn copy(&self) -> Result<Message, AllocError>
        ensures { IfOk result (λ message. message ≡ self.now) }
    {
        let publisher = self.publisher.copy()?;
        let topic = self.topic.copy()?;
        let props = self.props.copy()?;
        let body = self.body.copy()?;
        Ok(Message {
            offset: self.offset,
            publisher,
            incarnation: self.incarnation,
            id: self.id,
            qos: self.qos,
            stamp: self.stamp,
            expiry: self.expiry,
            topic,
            props,
            body,
        })
    }
}
