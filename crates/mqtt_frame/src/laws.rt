ghost use Rattle.std.specs.Prelude.{◌≡◌, ◌++◌, ℕ, List};
ghost use Rattle.wire_fields.specs.Reading.{AreBytes};
ghost use Rattle.mqtt_frame.specs.Framing.{framed};
ghost use Rattle.mqtt_frame.specs.Packets.{ArePackets, behind_packets};
ghost use Rattle.mqtt_frame.specs.PlainFramer.{fed_all, fed_by, joined, opening};

/// A law: after any list of pieces, fed one by one, the packets that came are those of all pieces joined, and the
/// stream is refused exactly where it is refused as a whole, and for the same reason.
pub fn pieces_make_no_difference()
    ensures { (limit : ℕ) (pieces : List (List ℕ)) →
        fed_all (opening limit) pieces ≡ fed_by limit (framed limit (joined pieces)) }
{}

/// A law: whole packets within the limit are given one by one, whatever follows them (MQTT 2.1).
pub fn packets_are_framed()
    ensures { (limit : ℕ) (packets : List (List ℕ)) (rest : List ℕ) → ArePackets limit packets →
        framed limit (joined packets ++ rest) ≡ behind_packets packets (framed limit rest) }
{}

/// A law: each packet of a stream is a whole one within the limit, and no byte is lost or added.
pub fn framed_are_packets()
    ensures packets { (limit : ℕ) (stream : List ℕ) → AreBytes stream →
        ArePackets limit (framed limit stream).packets }
    ensures all { (limit : ℕ) (stream : List ℕ) → AreBytes stream →
        joined (framed limit stream).packets ++ (framed limit stream).rest ≡ stream }
{}
