ghost use Rattle.std.specs.Prelude.{◌≡◌, ◌++◌, None};
ghost use Rattle.wire_fields.specs.Spelled.{spelled_u8, spelled_u16, spelled_u64};
ghost use Rattle.topic_model.specs.Levels.{text_of_levels};
ghost use Rattle.topic_name.specs.BodyView.{payload_of, place_of};
ghost use Rattle.session_codec.specs.Taking.{Puts, IsShort};
ghost use Rattle.record_codec.specs.Spelling.{spelled_blob, spelled_topic, spelled_expiry, spelled_sender, spelled_told, spelled_message};
ghost use Rattle.record_codec.specs.Taking.{HasLength, IsTold};

use crate::numbers::Number::{Eight, Four, One, Two};
use crate::numbers::put_numbers;
use std::alloc::AllocError;
use topic_name::{Blob, Body, Message, Name, Topic};
use wire_fields::{put_text, put_u32};

// Each puts a part at the end. On want of memory some of it may stand there.

// Bytes, behind how many they are.
#[tactic(auto, using(session_codec::specs::PutLaws::parts_begin))]
fn put_blob(bytes: &[u8], out: &mut Vec<u8>) -> Result<(), AllocError>
    requires { HasLength bytes.now }
    ensures exact { Puts result out.old.items out.new.items (spelled_blob bytes.now) }
{
    put_u32(bytes.len() as u32, out)?;
    out.extend_from_slice(bytes)?;
    Ok(())
}

// Who published, and in which session.
#[tactic(auto, using(session_codec::specs::PutLaws::parts_begin))]
pub(crate) fn put_sender(
    publisher: &Name,
    incarnation: u64,
    out: &mut Vec<u8>,
) -> Result<(), AllocError>
    requires { IsShort publisher.now }
    ensures exact { Puts result out.old.items out.new.items
        (spelled_sender publisher.now incarnation) }
{
    put_text(publisher.bytes(), out)?;
    put_numbers(&[Eight(incarnation)], out)?;
    Ok(())
}

// The packet identifier, the QoS, the stamp, and the expiry if there is one.
fn put_delivery(
    id: u16,
    qos: u8,
    stamp: u64,
    expiry: Option<u32>,
    out: &mut Vec<u8>,
) -> Result<(), AllocError>
    ensures exact { Puts result out.old.items out.new.items
        ((spelled_u16 id ++ spelled_u8 qos) ++ (spelled_u64 stamp ++ spelled_expiry expiry)) }
{
    match expiry {
        None => put_numbers(&[Two(id), One(qos), Eight(stamp)], out),
        Some(seconds) => put_numbers(&[Two(id), One(qos), Eight(stamp), Four(seconds)], out),
    }
}

#[tactic(auto, using(session_codec::specs::PutLaws::parts_begin))]
fn put_topic(topic: &Topic, out: &mut Vec<u8>) -> Result<(), AllocError>
    requires { IsShort (text_of_levels topic.now) }
    ensures exact { Puts result out.old.items out.new.items (spelled_topic topic.now) }
{
    put_text(topic.text().as_bytes(), out)?;
    Ok(())
}

// A payload that is in memory.
fn put_body(body: &Body, out: &mut Vec<u8>) -> Result<(), AllocError>
    requires here { place_of body.now ≡ None }
    requires length { HasLength (payload_of body.now) }
    ensures exact { Puts result out.old.items out.new.items (spelled_blob (payload_of body.now)) }
{
    match body {
        Body::Here(bytes) => put_blob(bytes.as_slice(), out),
        Body::Cold { .. } => unreachable!(),
    }
}

// Properties and a payload.
#[tactic(auto, using(session_codec::specs::PutLaws::parts_begin))]
fn put_blobs(props: &Blob, body: &Body, out: &mut Vec<u8>) -> Result<(), AllocError>
    requires props { HasLength props.now }
    requires here { place_of body.now ≡ None }
    requires length { HasLength (payload_of body.now) }
    ensures exact { Puts result out.old.items out.new.items
        (spelled_blob props.now ++ spelled_blob (payload_of body.now)) }
{
    put_blob(props.bytes(), out)?;
    put_body(body, out)?;
    Ok(())
}

// A topic, properties and a payload.
#[tactic(auto, using(session_codec::specs::PutLaws::parts_begin))]
fn put_content(
    topic: &Topic,
    props: &Blob,
    body: &Body,
    out: &mut Vec<u8>,
) -> Result<(), AllocError>
    requires topic { IsShort (text_of_levels topic.now) }
    requires props { HasLength props.now }
    requires here { place_of body.now ≡ None }
    requires length { HasLength (payload_of body.now) }
    ensures exact { Puts result out.old.items out.new.items
        (spelled_topic topic.now ++ (spelled_blob props.now ++ spelled_blob (payload_of body.now))) }
{
    put_topic(topic, out)?;
    put_blobs(props, body, out)?;
    Ok(())
}

// What is told of a message behind its publisher.
#[tactic(auto, using(session_codec::specs::PutLaws::parts_begin))]
fn put_told(message: &Message, out: &mut Vec<u8>) -> Result<(), AllocError>
    requires { IsTold message.now }
    ensures exact { Puts result out.old.items out.new.items (spelled_told message.now.stored) }
{
    put_delivery(message.id, message.qos, message.stamp, message.expiry, out)?;
    put_content(&message.topic, &message.props, &message.body, out)?;
    Ok(())
}

#[tactic(auto, using(session_codec::specs::PutLaws::parts_begin))]
pub(crate) fn put_message(message: &Message, out: &mut Vec<u8>) -> Result<(), AllocError>
    requires { IsTold message.now }
    ensures exact { Puts result out.old.items out.new.items (spelled_message message.now.stored) }
{
    put_sender(&message.publisher, message.incarnation, out)?;
    put_told(message, out)?;
    Ok(())
}
