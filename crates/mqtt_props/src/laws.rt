ghost use Rattle.std.specs.Prelude.{◌≡◌, ◌≤◌, ◌++◌, [], ◌∷◌, ℕ, Bool, true, List, length, map, All, Ok, Err};
ghost use Rattle.std.specs.List.Sorted.{IsPermutation};
ghost use Rattle.wire_fields.specs.Spelled.{spelled_var};
ghost use Rattle.wire_fields.specs.Reading.{AreBytes};
ghost use Rattle.mqtt_props.specs.declared.prop.Prop.{Prop};
ghost use Rattle.mqtt_props.specs.declared.refused.PropRefused.{PropRefused};
ghost use Rattle.mqtt_props.specs.declared.table.Holder.{Holder};
ghost use Rattle.mqtt_props.specs.declared.table.Holder.TheVariants.{Publish};
ghost use Rattle.mqtt_props.specs.Table.{rows};
ghost use Rattle.mqtt_props.specs.Prop.{IsProp, IsPropIn, spelled_prop};
ghost use Rattle.mqtt_props.specs.Reading.{then_read, prop_at, IsOfBytes};
ghost use Rattle.mqtt_props.specs.Props.{arranged, bare_list, bare_props, checked, in_writing_order, list_at, props_at, spelled_bare, spelled_props, AreProps, FitsIn, IsArranged, SpellsBare, SpellsSized, TookList};
ghost use Rattle.mqtt_props.specs.Lookup.{forwarded};
ghost use Rattle.mqtt_props.specs.Sizes.{var_size, prop_size, bare_size, props_size};

use crate::table::{
    ASSIGNED_CLIENT_IDENTIFIER, AUTHENTICATION_DATA, AUTHENTICATION_METHOD, CONTENT_TYPE,
    CORRELATION_DATA, MAXIMUM_PACKET_SIZE, MAXIMUM_QOS, MESSAGE_EXPIRY_INTERVAL,
    PAYLOAD_FORMAT_INDICATOR, REASON_STRING, RECEIVE_MAXIMUM, REQUEST_PROBLEM_INFORMATION,
    REQUEST_RESPONSE_INFORMATION, RESPONSE_INFORMATION, RESPONSE_TOPIC, RETAIN_AVAILABLE,
    SERVER_KEEP_ALIVE, SERVER_REFERENCE, SESSION_EXPIRY_INTERVAL, SHARED_SUBSCRIPTION_AVAILABLE,
    SUBSCRIPTION_IDENTIFIER, SUBSCRIPTION_IDENTIFIER_AVAILABLE, TOPIC_ALIAS, TOPIC_ALIAS_MAXIMUM,
    USER_PROPERTY, WILDCARD_SUBSCRIPTION_AVAILABLE, WILL_DELAY_INTERVAL,
};
use wire_fields::MOST_VAR;

/// A law: each name of an identifier stands for the one of the table's row of that property (MQTT 2.2.2.2, table 2-4).
pub fn names_are_of_the_table()
    ensures { map (λ r. r.identifier) rows ≡ PAYLOAD_FORMAT_INDICATOR ∷ MESSAGE_EXPIRY_INTERVAL
        ∷ CONTENT_TYPE ∷ RESPONSE_TOPIC ∷ CORRELATION_DATA ∷ SUBSCRIPTION_IDENTIFIER
        ∷ SESSION_EXPIRY_INTERVAL ∷ ASSIGNED_CLIENT_IDENTIFIER ∷ SERVER_KEEP_ALIVE
        ∷ AUTHENTICATION_METHOD ∷ AUTHENTICATION_DATA ∷ REQUEST_PROBLEM_INFORMATION
        ∷ WILL_DELAY_INTERVAL ∷ REQUEST_RESPONSE_INFORMATION ∷ RESPONSE_INFORMATION
        ∷ SERVER_REFERENCE ∷ REASON_STRING ∷ RECEIVE_MAXIMUM ∷ TOPIC_ALIAS_MAXIMUM ∷ TOPIC_ALIAS
        ∷ MAXIMUM_QOS ∷ RETAIN_AVAILABLE ∷ USER_PROPERTY ∷ MAXIMUM_PACKET_SIZE
        ∷ WILDCARD_SUBSCRIPTION_AVAILABLE ∷ SUBSCRIPTION_IDENTIFIER_AVAILABLE
        ∷ SHARED_SUBSCRIPTION_AVAILABLE ∷ [] }
{}

/// A law: what is spelled is read again, whatever follows it. Properties are read in any order, and a list that is in
/// writing order, without a repeated property or a bad value, is read as it is.
pub fn spelled_is_read()
    ensures prop { (holder : Holder) (p : Prop) (rest : List ℕ) → IsPropIn holder p →
        prop_at holder (spelled_prop p ++ rest) ≡ Ok (p, rest) }
    ensures any_order { (holder : Holder) (ps : List Prop) → All (IsPropIn holder) ps →
        bare_props holder (spelled_bare ps) ≡ arranged holder ps }
    ensures bare { (holder : Holder) (ps : List Prop) → FitsIn holder ps →
        bare_props holder (spelled_bare ps) ≡ Ok ps }
    ensures whole { (holder : Holder) (ps : List Prop) (rest : List ℕ) → FitsIn holder ps →
        length (spelled_bare ps) ≤ MOST_VAR →
        props_at holder (spelled_props ps ++ rest) ≡ Ok (ps, rest) }
    ensures list { (holder : Holder) (qs : List Prop) (rest : List ℕ) →
        All (IsPropIn holder) qs → length (spelled_bare qs) ≤ MOST_VAR →
        list_at holder (spelled_props qs ++ rest) ≡ Ok (in_writing_order qs, rest) }
{}

/// A law: what is read was spelled so, in some order.
pub fn read_was_spelled()
    ensures prop { (holder : Holder) (bytes rest : List ℕ) (p : Prop) → AreBytes bytes →
        prop_at holder bytes ≡ Ok (p, rest) →
        IsPropIn holder p × (bytes ≡ spelled_prop p ++ rest) }
    ensures bare { (holder : Holder) (bytes : List ℕ) (ps : List Prop) → AreBytes bytes →
        bare_props holder bytes ≡ Ok ps → SpellsBare holder bytes ps }
    ensures whole { (holder : Holder) (bytes rest : List ℕ) (ps : List Prop) → AreBytes bytes →
        props_at holder bytes ≡ Ok (ps, rest) → SpellsSized holder bytes ps rest }
    ensures list { (holder : Holder) (bytes rest : List ℕ) (ps : List Prop) → AreBytes bytes →
        list_at holder bytes ≡ Ok (ps, rest) →
        (qs : List Prop) × TookList holder bytes qs ps rest }
{}

/// A law: a list that is refused for a repeated property or a bad value is read to its end first, and then checked.
pub fn checks_come_last()
    ensures bare { (holder : Holder) (bytes : List ℕ) →
        bare_props holder bytes ≡ then_read (bare_list holder bytes) (checked holder) }
    ensures whole { (holder : Holder) (bytes : List ℕ) →
        props_at holder bytes ≡ then_read (list_at holder bytes)
        (λ x. then_read (checked holder x.0) (λ ps. Ok (ps, x.1))) }
{}

/// A law: a property, and a list where neither repeated properties nor bad values are looked at, is refused as
/// `Unknown`, `Misplaced` or `Spelling` alone.
pub fn refused_for_its_bytes()
    ensures prop { (holder : Holder) (bytes : List ℕ) (e : PropRefused) →
        prop_at holder bytes ≡ Err e → IsOfBytes e }
    ensures list { (holder : Holder) (bytes : List ℕ) (e : PropRefused) →
        list_at holder bytes ≡ Err e → IsOfBytes e }
{}

/// A law: no list with its length in front begins another of the same holder, and one spelling that is written is of
/// one list.
pub fn none_begins_another()
    ensures { (holder : Holder) (ps qs : List Prop) (x y : List ℕ) →
        FitsIn holder ps → FitsIn holder qs →
        length (spelled_bare ps) ≤ MOST_VAR → length (spelled_bare qs) ≤ MOST_VAR →
        spelled_props ps ++ x ≡ spelled_props qs ++ y → (ps ≡ qs) × (x ≡ y) }
{}

/// A law: writing order loses and adds nothing, so that the list takes as many bytes; each property may still stand
/// where it may, and still passes a test; and a second time it changes nothing.
pub fn order_keeps_all()
    ensures moves { (ps : List Prop) → All IsProp ps → IsPermutation ps (in_writing_order ps) }
    ensures props { (ps : List Prop) → All IsProp ps → AreProps (in_writing_order ps) }
    ensures fits { (holder : Holder) (ps : List Prop) → All (IsPropIn holder) ps →
        All (IsPropIn holder) (in_writing_order ps) }
    ensures each { (test : Prop → Bool) (ps : List Prop) → All (λ p. test p ≡ true) ps →
        All (λ p. test p ≡ true) (in_writing_order ps) }
    ensures again { (ps : List Prop) →
        in_writing_order (in_writing_order ps) ≡ in_writing_order ps }
    ensures size { (ps : List Prop) → All IsProp ps →
        length (spelled_bare (in_writing_order ps)) ≡ length (spelled_bare ps) }
{}

/// A law: a list in writing order is arranged as itself, and one that was arranged is in writing order and may stand
/// there too.
pub fn written_is_arranged()
    ensures itself { (holder : Holder) (ps : List Prop) → All (IsPropIn holder) ps →
        in_writing_order ps ≡ ps → IsArranged holder ps ps }
    ensures fits { (holder : Holder) (qs ps : List Prop) → IsArranged holder qs ps →
        All (IsPropIn holder) ps }
    ensures ordered { (holder : Holder) (qs ps : List Prop) → IsArranged holder qs ps →
        in_writing_order ps ≡ ps }
{}

/// A law: where one is added (`Props::add`), and where those are kept that a server sends on (`Props::keep_forwarded`),
/// what may stand there still may. What is sent on may stand in PUBLISH, also where it came with a will (MQTT 3.3.2.3).
pub fn changed_lists_fit()
    ensures added { (holder : Holder) (ps : List Prop) (p : Prop) → All (IsPropIn holder) ps →
        IsPropIn holder p → All (IsPropIn holder) (in_writing_order (ps ++ p ∷ [])) }
    ensures forwarded { (holder : Holder) (ps : List Prop) → All (IsPropIn holder) ps →
        All (IsPropIn holder) (forwarded ps) }
    ensures whole { (holder : Holder) (ps : List Prop) → FitsIn holder ps →
        FitsIn holder (forwarded ps) }
    ensures in_publish { (ps : List Prop) → All IsProp ps →
        All (IsPropIn Publish) (forwarded ps) }
{}

/// A law: how many bytes a variable byte integer, a property, a list, and a list with its length in front take (MQTT
/// 1.5.5, 2.2.2).
pub fn sizes_are_numbers()
    ensures var { (n : ℕ) → length (spelled_var n) ≡ var_size n }
    ensures prop { (p : Prop) → IsProp p → length (spelled_prop p) ≡ prop_size p }
    ensures bare { (ps : List Prop) → All IsProp ps → length (spelled_bare ps) ≡ bare_size ps }
    ensures whole { (ps : List Prop) → All IsProp ps → length (spelled_props ps) ≡ props_size ps }
{}
