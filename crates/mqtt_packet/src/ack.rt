ghost use Rattle.std.specs.Prelude.{◌≡◌, [], take, drop, if◌then◌else◌, ◌==◌};
ghost use Rattle.mqtt_packet.specs.Packet.{ack};
ghost use Rattle.mqtt_packet.specs.Spelling.{written};

use crate::kinds::fixed_flags;
use crate::packet::AckKind;

/// Puts an acknowledgement without properties at the front, in its shortest form, and gives how many bytes it takes: 4
/// where the reason is 0, and else 5. What stands behind these stays. It takes no memory (MQTT 3.4.2.1).
pub fn write_ack(kind: AckKind, id: u16, reason: u8, out: &mut [u8; 5]) -> usize
    ensures size { result ≡ if reason == 0 then 4 else 5 }
    ensures bytes { take result out.new ≡ written (ack kind id reason []) }
    ensures stays { drop result out.new ≡ drop result out.old }
{
    let number = kind.number();
    let first = 16 * number + fixed_flags(number);
    let id = id.to_be_bytes();
    if reason == 0 {
        *out = [first, 2, id[0], id[1], out[4]];
        return 4;
    }
    *out = [first, 3, id[0], id[1], reason];
    5
}
