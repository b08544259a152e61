// What a list of properties stands in, by its name.
ghost use Rattle.std.specs.Prelude.{◌≡◌};
ghost use Rattle.packet_lines.specs.Command.{holder_of};

use mqtt_props::Holder;

/// What this word names: a packet's kind in lower case, or a will; `None` for another word.
pub fn holder_of(word: &[u8]) -> Option<Holder>
    ensures { result ≡ holder_of word.now }
{
    if word == b"connect".as_slice() {
        Some(Holder::Connect)
    } else if word == b"connack".as_slice() {
        Some(Holder::Connack)
    } else if word == b"publish".as_slice() {
        Some(Holder::Publish)
    } else if word == b"puback".as_slice() {
        Some(Holder::Puback)
    } else if word == b"pubrec".as_slice() {
        Some(Holder::Pubrec)
    } else if word == b"pubrel".as_slice() {
        Some(Holder::Pubrel)
    } else if word == b"pubcomp".as_slice() {
        Some(Holder::Pubcomp)
    } else if word == b"subscribe".as_slice() {
        Some(Holder::Subscribe)
    } else if word == b"suback".as_slice() {
        Some(Holder::Suback)
    } else if word == b"unsubscribe".as_slice() {
        Some(Holder::Unsubscribe)
    } else if word == b"unsuback".as_slice() {
        Some(Holder::Unsuback)
    } else if word == b"pingreq".as_slice() {
        Some(Holder::Pingreq)
    } else if word == b"pingresp".as_slice() {
        Some(Holder::Pingresp)
    } else if word == b"disconnect".as_slice() {
        Some(Holder::Disconnect)
    } else if word == b"auth".as_slice() {
        Some(Holder::Auth)
    } else if word == b"will".as_slice() {
        Some(Holder::Will)
    } else {
        None
    }
}
