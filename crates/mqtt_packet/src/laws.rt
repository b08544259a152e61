ghost use Rattle.std.specs.Prelude.{◌≡◌, ◌≤◌, ◌++◌, ℕ, false, true, List, length, Some, None, Ok, Err};
ghost use Rattle.wire_fields.specs.Reading.{AreBytes};
ghost use Rattle.mqtt_frame.specs.Packets as Frame;
ghost use Rattle.mqtt_packet.specs.declared.refused.ReadRefused.TheVariants.{Malformed, Protocol, Version};
ghost use Rattle.mqtt_packet.specs.Packet.{PlainPacket};
ghost use Rattle.mqtt_packet.specs.Spelling.{written, written_body};
ghost use Rattle.mqtt_packet.specs.Sizes.{body_size, packet_size};
ghost use Rattle.mqtt_packet.specs.Fits.{Fits, IsPacket};
ghost use Rattle.mqtt_packet.specs.Spells.{Spells};
ghost use Rattle.mqtt_packet.specs.Reading.{packet_in};
ghost use Rattle.mqtt_packet.specs.Rules.{broken_rule};
ghost use Rattle.mqtt_packet.specs.Answer.{answer, by_rule, is_other_version};

/// A law: what spells a packet is read as it, whatever the order of its properties and whether in a short form or a
/// long one, and is never taken for another version of the protocol (MQTT 2.1, 3).
pub fn spelled_is_read()
    ensures packet { (bytes : List ℕ) (packet : PlainPacket) →
        Spells bytes packet → packet_in bytes ≡ Some packet }
    ensures version { (bytes : List ℕ) (packet : PlainPacket) →
        Spells bytes packet → is_other_version bytes ≡ false }
{}

/// A law: what is read as a packet spells it (MQTT 2.1, 3).
pub fn read_was_spelled()
    ensures { (bytes : List ℕ) (packet : PlainPacket) → AreBytes bytes →
        packet_in bytes ≡ Some packet → Spells bytes packet }
{}

/// A law: a packet that has a spelling can be written: its fields fit, its properties stand in writing order, and the
/// body that is written isn't too long, since it is never longer than one that was read (MQTT 2.1.4).
pub fn spelled_can_be_written()
    ensures { (bytes : List ℕ) (packet : PlainPacket) → Spells bytes packet → IsPacket packet }
{}

/// A law: what is written spells the packet, and no other one; it is answered as the packet, or by the rule that the
/// packet breaks.
pub fn written_is_spelled()
    ensures itself { (packet : PlainPacket) → IsPacket packet → Spells (written packet) packet }
    ensures alone { (packet other : PlainPacket) → IsPacket packet →
        Spells (written packet) other → other ≡ packet }
    ensures answer { (packet : PlainPacket) → IsPacket packet →
        answer (written packet) ≡ by_rule packet (broken_rule packet) }
{}

/// A law: no spelling begins another one, and one spelling is of one packet.
pub fn none_begins_another()
    ensures { (x y u v : List ℕ) (p q : PlainPacket) → Spells x p → Spells y q →
        x ++ u ≡ y ++ v → (x ≡ y) × (p ≡ q) × (u ≡ v) }
{}

/// A law: bytes are answered as a packet exactly where they spell it and it breaks no rule; by a rule exactly where they
/// spell a packet that breaks it; as another version exactly where they are a CONNECT of one; and as malformed exactly
/// where they are neither that nor spell any packet (MQTT 3.1.2.1, 3.1.2.2, 4.13.1).
pub fn answers_are_exact()
    ensures packet { (bytes : List ℕ) (packet : PlainPacket) → AreBytes bytes →
        answer bytes ≡ Ok packet → Spells bytes packet × (broken_rule packet ≡ None) }
    ensures if_packet { (bytes : List ℕ) (packet : PlainPacket) →
        Spells bytes packet → broken_rule packet ≡ None → answer bytes ≡ Ok packet }
    ensures malformed { (bytes : List ℕ) → answer bytes ≡ Err Malformed →
        (is_other_version bytes ≡ false) × ((packet : PlainPacket) → Spells bytes packet → ⊥) }
    ensures if_malformed { (bytes : List ℕ) → AreBytes bytes → is_other_version bytes ≡ false →
        ((packet : PlainPacket) → Spells bytes packet → ⊥) → answer bytes ≡ Err Malformed }
    ensures rule { (bytes : List ℕ) (rule : ℕ) → AreBytes bytes →
        answer bytes ≡ Err (Protocol rule) →
        (packet : PlainPacket) × Spells bytes packet × (broken_rule packet ≡ Some rule) }
    ensures if_rule { (bytes : List ℕ) (packet : PlainPacket) (rule : ℕ) →
        Spells bytes packet → broken_rule packet ≡ Some rule →
        answer bytes ≡ Err (Protocol rule) }
    ensures version { (bytes : List ℕ) →
        answer bytes ≡ Err Version → is_other_version bytes ≡ true }
    ensures if_version { (bytes : List ℕ) →
        is_other_version bytes ≡ true → answer bytes ≡ Err Version }
{}

/// A law: what is written is a whole packet to a framer whose limit it keeps within, which so gives it back (MQTT 2.1).
pub fn written_is_a_frame()
    ensures { (limit : ℕ) (packet : PlainPacket) → IsPacket packet →
        length (written packet) ≤ limit → Frame.IsPacket limit (written packet) }
{}

/// A law: the length of what is written is a number computed from the packet's fields (MQTT 2.1.4).
pub fn length_is_a_number()
    ensures body { (packet : PlainPacket) → Fits packet →
        length (written_body packet) ≡ body_size packet }
    ensures whole { (packet : PlainPacket) → Fits packet →
        length (written packet) ≡ packet_size packet }
{}
