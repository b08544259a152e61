ghost use Rattle.std.specs.Prelude.{◌≡◌, ◌++◌, ◌∷◌, ◌<◌, ◌≤◌, ◌+◌, [], length, slice_get, slice_set, is_some, filter, not, ◌==◌, map, Some, None, IsTrue, OnOk, IfOk, IfSome, false};
ghost use Rattle.first_session_core.specs.SessionView.{HasOffsets, sweep_of};
ghost use Rattle.first_mqtt_packet.specs.Spells.{IsBuilt};
ghost use Rattle.first_mqtt_packet.specs.Reading.{packet_of};
ghost use Rattle.first_session_terms.specs.Change.{act_all, session_of, subscribed_session, issued_session};
ghost use Rattle.first_session_core.specs.PlainConnection.{PlainConnection};
ghost use Rattle.first_session_core.specs.Pump.{pumped_connection};
ghost use Rattle.first_session_core.specs.IssuedView.{issue_of_fields};
ghost use Rattle.first_world_terms.specs.Move.{connection_at, without_connection, owed_by, connack, Sent, sent_on};
ghost use Rattle.first_world_terms.specs.Turn.{waits};
ghost use Rattle.first_world_terms.specs.Text.{text_of_outs};
ghost use Rattle.first_world_terms.specs.PlainBroker.{PlainBroker, empty_broker, plain_step, opened, sent, sent_bound, first_packet, turned_away, refused, bound_packet, taken, pumped, ended, session_on, without, list_with};
ghost use Rattle.first_session_terms.specs.PlainSession.{PlainSession};
ghost use Rattle.first_session_core.specs.SessionStep.{published, granted, refusal_of};
ghost use Rattle.first_shard_terms.specs.ShardList.{store, Store};
ghost use Rattle.first_mqtt_packet.specs.declared.packet.Packet.TheVariants.{Puback, Subscribe, Suback};
ghost use Rattle.script_lines.specs.LineView.{line_of_fields};
ghost use Rattle.broker_main.specs.BrokerView.{IsSessionPlace, IsConnectionPlace, IsWrittenAt, connected};

use crate::finding::{place_of_connection, place_of_session};
use first_mqtt_packet::{Packet, Prop, Props, ReadRefused, Wish, Wishes, read};
use first_session_core::{Connection, Issued, Session, four_in, pump, refusal};
use first_topic_name::{Filter, Message, Topic};
use script_lines::{Line, put_closed, put_sent};
use std::alloc::{AllocError, Global};
use std::marker::Model;
use topic_name::{Blob, Name};

/// All that a broker in memory keeps: the one shard's messages, the one worker's sessions in order of creation, the bound
/// connections, and the numbers of those that are open and not bound yet. Contracts see a `PlainBroker`.
#[derive(Drop)]
pub struct Broker {
    messages: Vec<Message>,
    sessions: Vec<Session>,
    connections: Vec<Connection>,
    lobby: Vec<u16>,
}

impl Model for Broker {
    ghost use Rattle.first_session_core.specs.SessionView.{HasOffsets};
    ghost use Rattle.first_world_terms.specs.PlainBroker.{PlainBroker};

    ghost Value = { PlainBroker };

    ghost view = { λ b. record { messages = b.messages.items; sessions = b.sessions.items; connections = b.connections.items; lobby = b.lobby.items } };

    ghost invariant = { λ b. HasOffsets 0 b.messages.items };
}

impl Broker {
    /// A broker to which nobody is connected, and which has nothing stored.
    pub fn new(alloc: Global) -> Broker
        ensures { result ≡ empty_broker }
    {
        Broker {
            messages: Vec::new(alloc),
            sessions: Vec::new(alloc),
            connections: Vec::new(alloc),
            lobby: Vec::new(alloc),
        }
    }

    // Whether this connection is bound.
    fn is_bound(&self, number: u16) -> bool
        ensures { result ≡ is_some (connection_at number self.now.connections) }
    {
        place_of_connection(&self.connections, number) < self.connections.len()
    }

    // Whether this connection is open and not bound yet.
    fn is_waiting(&self, number: u16) -> bool
        ensures { result ≡ waits number self.now.lobby }
    {
        self.lobby.iter().any(|d| *d == number)
    }

    // The place of the session of this connection; the number of sessions where it has none.
    fn session_place(&self, number: u16) -> usize
        ensures within { result ≤ length self.now.sessions }
        ensures found { session_on self.now number ≡ slice_get self.now.sessions result }
        ensures written { IsWrittenAt self.now.sessions result }
    {
        let at = place_of_connection(&self.connections, number);
        if at < self.connections.len() {
            let client = self.connections[at].client();
            place_of_session(&self.sessions, client)
        } else {
            self.sessions.len()
        }
    }

    // The end of a connection: its session is parted from it.
    fn end(&mut self, number: u16)
        ensures { self.new ≡ ended number self.old }
    {
        let at = place_of_connection(&self.connections, number);
        if at < self.connections.len() {
            let client = self.connections[at].client();
            part_session(&mut self.sessions, client);
        }
        remove_connection(&mut self.connections, number);
    }

    // A connection is opened; one of its number that is open is closed by its client first.
    fn open(&mut self, number: u16) -> Result<(), AllocError>
        ensures { OnOk result (self.new ≡ (opened number (connection_at number self.old.connections) self.old).broker) }
    {
        if self.is_bound(number) {
            self.end(number);
        }
        remove_number(&mut self.lobby, number);
        self.lobby.push(number)?;
        Ok(())
    }

    // A connection is closed before it was bound, with nothing written.
    fn turn_away(
        &mut self,
        alloc: Global,
        number: u16,
        text: &mut Vec<u8>,
    ) -> Result<(), AllocError>
        ensures broker { OnOk result (self.new ≡ (turned_away number self.old).broker) }
        ensures text { OnOk result (text.new.items ≡ text.old.items ++ text_of_outs (turned_away number self.old).outs) }
    {
        remove_number(&mut self.lobby, number);
        put_closed(alloc, number, text)
    }

    // A bound connection is closed with a reason (MQTT 4.13).
    fn refuse(
        &mut self,
        alloc: Global,
        number: u16,
        reason: u8,
        text: &mut Vec<u8>,
    ) -> Result<(), AllocError>
        ensures broker { OnOk result (self.new ≡ (refused number reason self.old).broker) }
        ensures text { OnOk result (text.new.items ≡ text.old.items ++ text_of_outs (refused number reason self.old).outs) }
    {
        self.end(number);
        let packet = Packet::Disconnect {
            reason,
            props: Props::new(alloc),
        };
        put_answer(alloc, number, packet, text)?;
        put_closed(alloc, number, text)
    }

    // A first packet that is a CONNECT: its session begins, unless its client has one (MQTT 3.1).
    fn connect(
        &mut self,
        alloc: Global,
        number: u16,
        client: Name,
        keep_alive: u16,
        props: &Props,
        text: &mut Vec<u8>,
    ) -> Result<(), AllocError>
        ensures broker { OnOk result (self.new ≡ (connected number client keep_alive props.now self.old).broker) }
        ensures text { OnOk result (text.new.items ≡ text.old.items ++ text_of_outs (connected number client keep_alive props.now self.old).outs) }
    {
        if place_of_session(&self.sessions, &client) < self.sessions.len() {
            return self.turn_away(alloc, number, text);
        }
        let name = client.copy()?;
        let incarnation = self.sessions.len() as u64 + 1;
        let expiry = four_in(props.list(), 17, 0);
        self.connections
            .push(Connection::bound(number, name, keep_alive, props, 0))?;
        self.sessions
            .push(Session::begun(alloc, client, incarnation, expiry))?;
        remove_number(&mut self.lobby, number);
        put_answer(alloc, number, make_connack(alloc)?, text)
    }

    // The first packet of a connection; `None` where its bytes are no packet of a form that is built.
    fn take_first(
        &mut self,
        alloc: Global,
        number: u16,
        packet: Option<Packet>,
        text: &mut Vec<u8>,
    ) -> Result<(), AllocError>
        ensures broker { OnOk result (self.new ≡ (first_packet number packet self.old).broker) }
        ensures text { OnOk result (text.new.items ≡ text.old.items ++ text_of_outs (first_packet number packet self.old).outs) }
    {
        match packet {
            Some(
                Packet::Connect {
                    clean: _,
                    keep_alive,
                    props,
                    client,
                    will: _,
                    user: _,
                    password: _,
                },
            ) => { self.connect(alloc, number, client, keep_alive, &props, text) }
            other => {
                drop(other);
                self.turn_away(alloc, number, text)
            }
        }
    }

    // A PUBLISH is stored, and then acknowledged (MQTT 3.3.4).
    fn publish(
        &mut self,
        alloc: Global,
        number: u16,
        place: usize,
        id: u16,
        qos: u8,
        topic: Name,
        payload: Blob,
        text: &mut Vec<u8>,
    ) -> Result<(), AllocError>
        requires { place < length self.old.sessions }
        ensures broker { OnOk result (IfSome (slice_get self.old.sessions place) (λ (m : PlainSession). self.new ≡ record self.old { messages = (store (list_with self.old.messages) (Store (published m qos topic payload) ∷ []) 0).messages })) }
        ensures text { OnOk result (text.new.items ≡ text.old.items ++ text_of_outs (Sent number (Puback id 0 []) ∷ [])) }
    {
        store_message(
            &mut self.messages,
            &self.sessions[place],
            qos,
            topic,
            payload,
        )?;
        let answer = Packet::Puback {
            id,
            reason: 0,
            props: Props::new(alloc),
        };
        put_answer(alloc, number, answer, text)
    }

    // A SUBSCRIBE of one filter, of a session that has no subscription (MQTT 3.8.4).
    fn subscribe(
        &mut self,
        alloc: Global,
        number: u16,
        place: usize,
        id: u16,
        filters: Wishes,
        text: &mut Vec<u8>,
    ) -> Result<(), AllocError>
        requires one { length filters ≡ 1 }
        requires within { place < length self.old.sessions }
        requires written { IsWrittenAt self.old.sessions place }
        requires none { IfSome (slice_get self.old.sessions place) (λ (m : PlainSession). m.subscriptions ≡ []) }
        ensures broker { OnOk result (IfSome (slice_get self.old.sessions place) (λ (m : PlainSession). self.new ≡ (taken number (Subscribe id [] filters) m self.old).broker)) }
        ensures text { OnOk result (text.new.items ≡ text.old.items ++ text_of_outs (Sent number (Suback id [] (granted filters)) ∷ [])) }
    {
        let wish = only_wish(&filters);
        let options = wish.options;
        let filter = Filter::of(wish.filter.copy()?);
        drop(filters);
        let next = self.messages.len() as u64;
        subscribe_session(&mut self.sessions, place, filter, options, next);
        put_answer(alloc, number, make_suback(alloc, id, options)?, text)?;
        Ok(())
    }

    // A packet of a bound connection that isn't refused, with the place of its session.
    fn take_accepted(
        &mut self,
        alloc: Global,
        number: u16,
        place: usize,
        packet: Packet,
        text: &mut Vec<u8>,
    ) -> Result<(), AllocError>
        requires within { place < length self.old.sessions }
        requires written { IsWrittenAt self.old.sessions place }
        requires accepted { IfSome (slice_get self.old.sessions place) (λ (m : PlainSession). refusal_of m packet ≡ None) }
        requires built { IsBuilt packet }
        ensures broker { OnOk result (IfSome (slice_get self.old.sessions place) (λ (m : PlainSession). self.new ≡ (taken number packet m self.old).broker)) }
        ensures text { OnOk result (IfSome (slice_get self.old.sessions place) (λ (m : PlainSession). text.new.items ≡ text.old.items ++ text_of_outs (taken number packet m self.old).outs)) }
    {
        match packet {
            Packet::Publish {
                dup: _,
                qos,
                retain: _,
                topic,
                id,
                props: _,
                payload,
            } => { self.publish(alloc, number, place, id, qos, topic, payload, text) }
            Packet::Subscribe {
                id,
                props: _,
                filters,
            } => { self.subscribe(alloc, number, place, id, filters, text) }
            other => {
                drop(other);
                Ok(())
            }
        }
    }

    // A packet of a bound connection; `None` where its bytes are no packet of a form that is built.
    fn take_bound(
        &mut self,
        alloc: Global,
        number: u16,
        packet: Option<Packet>,
        text: &mut Vec<u8>,
    ) -> Result<(), AllocError>
        requires { IfSome packet IsBuilt }
        ensures broker { OnOk result (self.new ≡ (bound_packet number packet (session_on self.old number) self.old).broker) }
        ensures text { OnOk result (text.new.items ≡ text.old.items ++ text_of_outs (bound_packet number packet (session_on self.old number) self.old).outs) }
    {
        let Some(packet) = packet else {
            return self.refuse(alloc, number, 0x83, text);
        };
        let place = self.session_place(number);
        if place >= self.sessions.len() {
            drop(packet);
            return Ok(());
        }
        match refusal(&self.sessions[place], &packet) {
            Some(reason) => {
                drop(packet);
                self.refuse(alloc, number, reason, text)
            }
            None => self.take_accepted(alloc, number, place, packet, text),
        }
    }

    // A packet of a connection in the lobby, of a bound one, or of one that isn't open.
    fn take(
        &mut self,
        alloc: Global,
        number: u16,
        packet: Option<Packet>,
        text: &mut Vec<u8>,
    ) -> Result<(), AllocError>
        requires { IfSome packet IsBuilt }
        ensures broker { OnOk result (self.new ≡ (sent number packet self.old).broker) }
        ensures text { OnOk result (text.new.items ≡ text.old.items ++ text_of_outs (sent number packet self.old).outs) }
    {
        if self.is_waiting(number) {
            return self.take_first(alloc, number, packet, text);
        }
        if self.is_bound(number) {
            return self.take_bound(alloc, number, packet, text);
        }
        drop(packet);
        Ok(())
    }

    // Bytes of a connection.
    fn send(
        &mut self,
        alloc: Global,
        number: u16,
        bytes: &[u8],
        text: &mut Vec<u8>,
    ) -> Result<(), AllocError>
        ensures broker { OnOk result (self.new ≡ (sent number (packet_of bytes.now) self.old).broker) }
        ensures text { OnOk result (text.new.items ≡ text.old.items ++ text_of_outs (sent number (packet_of bytes.now) self.old).outs) }
    {
        match read(alloc, bytes) {
            Ok(packet) => self.take(alloc, number, Some(packet), text),
            Err(ReadRefused::Later) => self.take(alloc, number, None, text),
            Err(ReadRefused::Memory) => Err(AllocError),
        }
    }

    // A pump of a connection: what its session is issued goes out (MQTT 4.6).
    fn pump(&mut self, alloc: Global, number: u16, text: &mut Vec<u8>) -> Result<(), AllocError>
        ensures broker { OnOk result (self.new ≡ (pumped number (connection_at number self.old.connections) (session_on self.old number) self.old).broker) }
        ensures text { OnOk result (text.new.items ≡ text.old.items ++ text_of_outs (pumped number (connection_at number self.old.connections) (session_on self.old number) self.old).outs) }
    {
        let at = place_of_connection(&self.connections, number);
        if at >= self.connections.len() {
            return Ok(());
        }
        let place = self.session_place(number);
        if place >= self.sessions.len() {
            return Ok(());
        }
        let found = pump(
            alloc,
            &self.sessions[place],
            &self.connections[at],
            &self.messages,
        )?;
        let Some(issued) = found else {
            return Ok(());
        };
        issue_session(&mut self.sessions, place, &issued)?;
        spend_connection(&mut self.connections, at, &issued);
        put_packets(alloc, number, &issued.packets, text)?;
        drop(issued);
        Ok(())
    }

    /// Does a line of a script, and adds what it prints at the end of the text. After want of memory neither is known.
    pub fn line(&mut self, alloc: Global, line: Line, text: &mut Vec<u8>) -> Result<(), AllocError>
        ensures broker { OnOk result (self.new ≡ (plain_step (line_of_fields line) self.old).broker) }
        ensures text { OnOk result (text.new.items ≡ text.old.items ++ text_of_outs (plain_step (line_of_fields line) self.old).outs) }
    {
        match line {
            Line::Nothing => Ok(()),
            Line::Open(number) => self.open(number),
            Line::Send(number, bytes) => self.send(alloc, number, &bytes, text),
            Line::Pump(number) => self.pump(alloc, number, text),
        }
    }
}

// The session at this place was issued this.
fn issue_session(
    sessions: &mut Vec<Session>,
    place: usize,
    issued: &Issued,
) -> Result<(), AllocError>
    requires { place < length sessions.old.items }
    ensures { OnOk result (IfSome (slice_get sessions.old.items place) (λ (m : PlainSession). sessions.new.items ≡ slice_set sessions.old.items place (issued_session 1 0 (issue_of_fields issued.now).entries (issue_of_fields issued.now).sweep m))) }
{
    let session = &mut sessions[place];
    session.issue(&issued.entries, issued.base, issued.target, issued.position)
}

// The quota of the connection at this place falls by what was issued.
fn spend_connection(connections: &mut Vec<Connection>, place: usize, issued: &Issued)
    requires { place < length connections.old.items }
    ensures { IfSome (slice_get connections.old.items place) (λ (k : PlainConnection). connections.new.items ≡ slice_set connections.old.items place (pumped_connection (issue_of_fields issued.now) k)) }
{
    let connection = &mut connections[place];
    connection.spend(&issued.entries);
}

// The lines of packets of one connection.
fn put_packets(
    alloc: Global,
    number: u16,
    packets: &[Packet],
    text: &mut Vec<u8>,
) -> Result<(), AllocError>
    ensures { OnOk result (text.new.items ≡ text.old.items ++ text_of_outs (sent_on number packets.now)) }
{
    for packet in packets {
        put_sent(alloc, number, packet, text)?;
    }
    Ok(())
}

// The one filter of a SUBSCRIBE.
#[tactic(auto, using(crate::proofs::Subscribing::only_one))]
fn only_wish(filters: &Wishes) -> &Wish
    requires { length filters.now ≡ 1 }
    ensures { filters.now ≡ result.now ∷ [] }
{
    &filters.list()[0]
}

// The session at this place subscribes from an offset on.
fn subscribe_session(
    sessions: &mut Vec<Session>,
    place: usize,
    filter: Filter,
    options: u8,
    next: u64,
)
    requires within { place < length sessions.old.items }
    requires none { IfSome (slice_get sessions.old.items place) (λ (m : PlainSession). m.subscriptions ≡ []) }
    ensures { IfSome (slice_get sessions.old.items place) (λ (m : PlainSession). sessions.new.items ≡ slice_set sessions.old.items place (subscribed_session (length m.subscriptions + 1) (length m.versions + 1) options 0 filter (sweep_of next next next ∷ []) m)) }
{
    let session = &mut sessions[place];
    session.subscribe(filter, options, next);
}

// The acknowledgement of one filter: the granted QoS (MQTT 3.9.3).
fn make_suback(alloc: Global, id: u16, options: u8) -> Result<Packet, AllocError>
    ensures { IfOk result (λ packet. packet ≡ Suback id [] (options ∷ [])) }
{
    Ok(Packet::Suback {
        id,
        props: Props::new(alloc),
        reasons: Blob::of(alloc, &[options])?,
    })
}

// The line of one packet.
fn put_answer(
    alloc: Global,
    number: u16,
    packet: Packet,
    text: &mut Vec<u8>,
) -> Result<(), AllocError>
    ensures { OnOk result (text.new.items ≡ text.old.items ++ text_of_outs (Sent number packet ∷ [])) }
{
    let done = put_sent(alloc, number, &packet, text);
    drop(packet);
    done
}

// A message of this session's client is stored at the end of the list.
fn store_message(
    messages: &mut Vec<Message>,
    session: &Session,
    qos: u8,
    topic: Name,
    payload: Blob,
) -> Result<(), AllocError>
    requires { HasOffsets 0 messages.old.items }
    ensures stored { OnOk result (messages.new.items ≡ (store (list_with messages.old.items) (Store (published session.now qos topic payload) ∷ []) 0).messages) }
    ensures offsets { HasOffsets 0 messages.new.items }
{
    let publisher = session.client().copy()?;
    let incarnation = session.incarnation();
    let offset = messages.len() as u64;
    let topic = Topic::of(topic);
    let message = Message::published(
        offset,
        publisher,
        incarnation,
        qos,
        0,
        topic,
        Blob::empty(),
        payload,
    );
    messages.push(message)?;
    Ok(())
}

// The acknowledgement of a CONNECT: what this broker offers (MQTT 3.2.2.3).
fn make_connack(alloc: Global) -> Result<Packet, AllocError>
    ensures { IfOk result (λ packet. packet ≡ connack false) }
{
    let mut props = Props::new(alloc);
    props.push(Prop::Two(33, 32))?;
    props.push(Prop::Byte(37, 0))?;
    props.push(Prop::Four(39, 1048576))?;
    props.push(Prop::Byte(42, 0))?;
    Ok(Packet::Connack {
        present: false,
        reason: 0,
        props,
    })
}

// The session of a client is parted from its connection at moment 0.
fn part_session(sessions: &mut Vec<Session>, client: &Name)
    ensures { sessions.new.items ≡ act_all sessions.old.items (owed_by (session_of client.now sessions.old.items) 0) }
{
    let at = place_of_session(sessions, client);
    if at < sessions.len() {
        let session = &mut sessions[at];
        let expiry = session.expiry();
        session.part(expiry, 0);
    }
}

fn remove_connection(connections: &mut Vec<Connection>, number: u16)
    ensures { connections.new.items ≡ without_connection number connections.old.items }
{
    connections.retain(|k| k.number() != number);
}

fn remove_number(lobby: &mut Vec<u16>, number: u16)
    ensures { lobby.new.items ≡ without number lobby.old.items }
{
    lobby.retain(|d| *d != number);
}
