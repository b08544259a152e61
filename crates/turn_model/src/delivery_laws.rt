ghost use Rattle.std.specs.Prelude.{◌≡◌, ◌≤◌, ◌<◌, ◌^◌, ℕ, Bool, List, length, Ok};
ghost use Rattle.wire_fields.specs.Reading.{AreBytes};
ghost use Rattle.topic_model.specs.Levels.{text_of_levels};
ghost use Rattle.topic_model.specs.StoredMessage.{StoredMessage};
ghost use Rattle.session_model.specs.declared.entry.Kind.{Kind};
ghost use Rattle.session_model.specs.declared.entry.Version.{Version};
ghost use Rattle.mqtt_props.specs.declared.prop.Prop.{Prop};
ghost use Rattle.mqtt_props.specs.declared.table.Holder.TheVariants as In;
ghost use Rattle.mqtt_props.specs.Props.{bare_props};
ghost use Rattle.mqtt_packet.specs.Fits.{Fits, IfThere, IsTopicName};
ghost use Rattle.mqtt_packet.specs.Spelling.{written};
ghost use Rattle.mqtt_packet.specs.Sizes.{packet_size};
ghost use Rattle.turn_model.specs.Delivery.{delivery, delivery_length};

use wire_fields::MOST_VAR;

/// A law: of a message whose properties read as those of a PUBLISH, the length of a delivery, which is computed from
/// the version, the message and the kind of its entry, is that of the packet at every moment, sent before or not; and
/// where the packet's fields fit, that of the bytes which are written (MQTT 2.1.4, 3.3). They fit where the topic is a
/// topic name, and the identifier of the subscription and the interval of expiry are in their ranges (MQTT 3.3.2).
pub fn delivery_length_is_exact()
    ensures packet { (dup : Bool) (now : ℕ) (v : Version) (m : StoredMessage) (kind : Kind)
        (ps : List Prop) → AreBytes m.props → bare_props In.Publish m.props ≡ Ok ps →
        packet_size (delivery dup now v m kind) ≡ delivery_length v m kind }
    ensures bytes { (dup : Bool) (now : ℕ) (v : Version) (m : StoredMessage) (kind : Kind)
        (ps : List Prop) → AreBytes m.props → bare_props In.Publish m.props ≡ Ok ps →
        Fits (delivery dup now v m kind) →
        length (written (delivery dup now v m kind)) ≡ delivery_length v m kind }
    ensures fits { (dup : Bool) (now : ℕ) (v : Version) (m : StoredMessage) (kind : Kind)
        (ps : List Prop) → AreBytes m.props → bare_props In.Publish m.props ≡ Ok ps →
        IsTopicName (text_of_levels m.topic) → v.identifier ≤ MOST_VAR →
        IfThere (λ (expiry : ℕ). expiry < 2 ^ 32) m.expiry → Fits (delivery dup now v m kind) }
{}
