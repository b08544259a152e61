ghost use Rattle.std.specs.Prelude.{◌≡◌, ◌+◌, ◌-◌, ◌<◌, ◌≤◌, ◌^◌, [], ◌∷◌, ◌++◌, length, map, take, drop, min, IfOk, OnOk};
ghost use Rattle.std.specs.List.{filter_map};
ghost use Rattle.std.specs.Option.{option_map, option_to_list};
ghost use Rattle.first_session_core.specs.Pump.{pump_limit, pump_of, due_of, batch_of, batch_within, size_of, Due as PlainDue};
ghost use Rattle.first_session_core.specs.SessionView.{sweep_of, list_with, HasOffsets, reader_of, issued_run, issued_in_stretch};
ghost use Rattle.first_session_core.specs.IssuedView.{issue_of_fields, due_of_fields};
ghost use Rattle.first_mqtt_packet.specs.Written.{written};
ghost use Rattle.first_shard_terms.specs.SweepOrder.{sweep_after, next_run};

use crate::connection::Connection;
use crate::delivery::{is_own, kind_by_qos, make_delivery};
use crate::issued::{Due, Issued};
use crate::session::Session;
use crate::subscription::Subscription;
use crate::sweep::{find_wanted, stretch_of};
use crate::tracks::{one1, one2};
use first_mqtt_packet::{Packet, write};
use first_session_terms::{Entry, Kind};
use first_topic_name::Message;
use std::alloc::{AllocError, Global};
use topic_name::Name;

/// What a pump of the connection issues of these messages, which are all of the shard: `None` where nothing that the
/// session wants is left, or window or quota take no more. Nothing is changed by it.
pub fn pump(
    alloc: Global,
    session: &Session,
    connection: &Connection,
    messages: &[Message],
) -> Result<Option<Issued>, AllocError>
    requires { HasOffsets 0 messages.now }
    ensures { IfOk result (λ issued. option_map issue_of_fields issued ≡ pump_of session.now connection.now (list_with messages.now ∷ [])) }
{
    let limit = limit_of(session, connection);
    if limit == 0 {
        return Ok(None);
    }
    match session.subscription() {
        Some(subscription) => pump_subscription(
            alloc,
            session,
            connection,
            messages,
            limit,
            subscription,
        ),
        None => Ok(None),
    }
}

// How many entries may be issued at most.
fn limit_of(session: &Session, connection: &Connection) -> usize
    ensures value { result ≡ pump_limit session.now connection.now }
    ensures small { result ≤ 64 }
{
    session.room().min(connection.quota() as u64).min(64) as usize
}

// The length of the packet as it is written.
fn written_size(alloc: Global, packet: &Packet) -> Result<usize, AllocError>
    ensures { IfOk result (λ n. n ≡ length (written packet.now)) }
{
    let mut bytes = Vec::new(alloc);
    write(alloc, packet, &mut bytes)?;
    Ok(bytes.len())
}

// One message as it is issued with the next numbers of the tracks.
fn make_due(
    alloc: Global,
    client: &Name,
    limit: u32,
    subscription: &Subscription,
    message: &Message,
    next1: u64,
    next2: u64,
) -> Result<Due, AllocError>
    ensures due { IfOk result (λ d. due_of_fields d ≡ due_of (reader_of client.now limit subscription.now) next1 next2 message.now) }
    ensures size { IfOk result (λ d. d.size ≡ size_of d.packet) }
{
    let kind = kind_by_qos(message, subscription, next1, next2);
    let packet = make_delivery(alloc, message, subscription, kind)?;
    let size = written_size(alloc, &packet)?;
    if is_own(client, message, subscription) || size > limit as usize {
        return Ok(Due {
            entry: entry_of(message, Kind::Silent),
            packet: None,
            size: 0,
        });
    }
    Ok(Due {
        entry: entry_of(message, kind),
        packet: Some(packet),
        size,
    })
}

// The entry of a message for the one subscription in the one shard.
fn entry_of(message: &Message, kind: Kind) -> Entry
    ensures { result ≡ record { subscription = 1; version = 1; shard = 0; offset = message.now.offset; kind = kind } }
{
    Entry {
        subscription: 1,
        version: 1,
        shard: 0,
        offset: message.offset(),
        kind,
    }
}

// What is issued of a run: the first message always, the others while their packets fit.
fn make_batch(
    alloc: Global,
    client: &Name,
    limit: u32,
    subscription: &Subscription,
    run: &[&Message],
    next1: u64,
    next2: u64,
    stretch: (u64, u64, u64),
) -> Result<Issued, AllocError>
    requires first { next1 + length run.now < 2 ^ 64 }
    requires second { next2 + length run.now < 2 ^ 64 }
    ensures { IfOk result (λ i. let batch = batch_of (reader_of client.now limit subscription.now) next1 next2 (map (λ m. m.now) run.now) in
        issue_of_fields i ≡ record {
          subscription = 1;
          shard = 0;
          entries = map (λ (d : PlainDue). d.entry) batch;
          sweep = sweep_after (sweep_of stretch.0 stretch.1 stretch.2) (take (length batch) (map (λ m. m.now) run.now));
          packets = filter_map (λ (d : PlainDue). d.packet) batch;
        }) }
{
    let (base, target, position) = stretch;
    let mut issued = Issued {
        entries: Vec::new(alloc),
        packets: Vec::new(alloc),
        base,
        target,
        position,
    };
    let Some((message, rest)) = run.split_first() else {
        return Ok(issued);
    };
    let due = make_due(alloc, client, limit, subscription, message, next1, next2)?;
    let first1 = next1 + one1(due.entry.kind);
    let first2 = next2 + one2(due.entry.kind);
    let room = 2097152usize.saturating_sub(due.size);
    add_due(&mut issued, due, message)?;
    fill_batch(
        alloc,
        client,
        limit,
        subscription,
        rest,
        first1,
        first2,
        room,
        &mut issued,
    )?;
    Ok(issued)
}

// Of the messages that follow, those whose packets fit into so many bytes.
fn fill_batch(
    alloc: Global,
    client: &Name,
    limit: u32,
    subscription: &Subscription,
    run: &[&Message],
    first1: u64,
    first2: u64,
    bytes: usize,
    issued: &mut Issued,
) -> Result<(), AllocError>
    requires first { first1 + length run.now < 2 ^ 64 }
    requires second { first2 + length run.now < 2 ^ 64 }
    ensures entries { OnOk result (issued.new.entries.items ≡ issued.old.entries.items ++ map (λ (d : PlainDue). d.entry) (batch_within (reader_of client.now limit subscription.now) first1 first2 bytes (map (λ m. m.now) run.now))) }
    ensures packets { OnOk result (issued.new.packets.items ≡ issued.old.packets.items ++ filter_map (λ (d : PlainDue). d.packet) (batch_within (reader_of client.now limit subscription.now) first1 first2 bytes (map (λ m. m.now) run.now))) }
    ensures sweep { OnOk result (sweep_of issued.new.base issued.new.target issued.new.position ≡ sweep_after (sweep_of issued.old.base issued.old.target issued.old.position) (take (length (batch_within (reader_of client.now limit subscription.now) first1 first2 bytes (map (λ m. m.now) run.now))) (map (λ m. m.now) run.now))) }
{
    let mut next1 = first1;
    let mut next2 = first2;
    let mut room = bytes;
    for message in run {
        let due = make_due(alloc, client, limit, subscription, message, next1, next2)?;
        if due.size > room {
            drop(due);
            return Ok(());
        }
        next1 += one1(due.entry.kind);
        next2 += one2(due.entry.kind);
        room -= due.size;
        add_due(issued, due, message)?;
    }
    Ok(())
}

// Adds a message to what is issued, and moves the position behind it.
fn add_due(issued: &mut Issued, due: Due, message: &Message) -> Result<(), AllocError>
    ensures entries { OnOk result (issued.new.entries.items ≡ issued.old.entries.items ++ due.entry ∷ []) }
    ensures packets { OnOk result (issued.new.packets.items ≡ issued.old.packets.items ++ option_to_list due.packet) }
    ensures place { OnOk result ((issued.new.base ≡ issued.old.base) × (issued.new.target ≡ issued.old.target) × (issued.new.position ≡ message.now.offset + 1)) }
{
    let Due {
        entry,
        packet,
        size: _,
    } = due;
    issued.entries.push(entry)?;
    if let Some(packet) = packet {
        issued.packets.push(packet)?;
    }
    issued.position = message.offset() + 1;
    Ok(())
}

// What is issued of the one subscription: of the stretch up to its target, and only where that has nothing, of the one
// behind it.
#[tactic(auto, using(crate::proofs::Stretches::first_stretch, crate::proofs::Stretches::second_stretch))]
fn pump_subscription(
    alloc: Global,
    session: &Session,
    connection: &Connection,
    messages: &[Message],
    limit: usize,
    s: &Subscription,
) -> Result<Option<Issued>, AllocError>
    requires offsets { HasOffsets 0 messages.now }
    requires some { 0 < limit }
    requires few { limit ≤ 64 }
    ensures { IfOk result (λ issued. option_map issue_of_fields issued ≡ issued_run session.now connection.now limit s.now (next_run s.now.filter s.now.start (list_with messages.now) (sweep_of s.now.base s.now.target s.now.position))) }
{
    let first = (s.base, s.target, s.position);
    if let Some(issued) = pump_stretch(alloc, session, connection, messages, limit, s, first)? {
        return Ok(Some(issued));
    }
    let second = (s.target, messages.len() as u64, s.target);
    pump_stretch(alloc, session, connection, messages, limit, s, second)
}

// What is issued of one stretch: base, target and position of the sweep at its front.
fn pump_stretch(
    alloc: Global,
    session: &Session,
    connection: &Connection,
    messages: &[Message],
    limit: usize,
    s: &Subscription,
    stretch: (u64, u64, u64),
) -> Result<Option<Issued>, AllocError>
    requires offsets { HasOffsets 0 messages.now }
    requires some { 0 < limit }
    requires few { limit ≤ 64 }
    ensures { IfOk result (λ issued. option_map issue_of_fields issued ≡ issued_in_stretch session.now connection.now messages.now limit s.now stretch.0 stretch.1 stretch.2) }
{
    let found = stretch_of(messages, stretch.2, stretch.1);
    let run = find_wanted(alloc, found, &s.filter, s.start, limit)?;
    if run.is_empty() {
        return Ok(None);
    }
    let next1 = session.issued1() + 1;
    let next2 = session.issued2() + 1;
    let client = session.client();
    let most = connection.packet_limit();
    let issued = make_batch(alloc, client, most, s, &run, next1, next2, stretch)?;
    Ok(Some(issued))
}
