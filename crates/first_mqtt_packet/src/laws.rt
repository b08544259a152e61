ghost use Rattle.std.specs.Prelude.{◌≡◌, ◌≤◌, ◌++◌, ℕ, List, length, Some};
ghost use Rattle.first_mqtt_packet.specs.declared.packet.Packet.{Packet};
ghost use Rattle.first_mqtt_packet.specs.Written.{written};
ghost use Rattle.first_mqtt_packet.specs.Reading.{packet_of};
ghost use Rattle.first_mqtt_packet.specs.Spells.{Spells, IsBuilt};

/// A law: no spelling begins another, so that packets can follow one another on a connection, and one spelling is
/// of one packet.
pub fn none_begins_another()
    ensures { (a b x y : List ℕ) (p q : Packet) → Spells a p → Spells b q → a ++ x ≡ b ++ y → (a ≡ b) × (p ≡ q) }
{}

/// A law: what is written of a packet that is built spells it, and is read as that packet.
pub fn written_is_read()
    ensures spelled { (p : Packet) → IsBuilt p → length (written p) ≤ 268435460 → Spells (written p) p }
    ensures read { (p : Packet) → IsBuilt p → length (written p) ≤ 268435460 → packet_of (written p) ≡ Some p }
{}
