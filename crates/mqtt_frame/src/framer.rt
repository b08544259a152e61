ghost use Rattle.std.specs.Prelude.{◌≡◌, ◌++◌, IsErrOf, IfSome, Err};
ghost use Rattle.mqtt_frame.specs.declared.refused.FrameRefused.TheVariants.{Memory};
ghost use Rattle.mqtt_frame.specs.Refusal.{refusal_of};
ghost use Rattle.mqtt_frame.specs.PlainFramer.{IsAnswer, fed, opening};

use crate::framing::frame_piece;
use crate::refused::{BadHeader, FrameRefused};
use std::alloc::Global;
use std::marker::Model;
use topic_name::Blob;

/// Cuts a stream of bytes into packets. Contracts see a `PlainFramer`.
#[derive(Drop)]
pub struct Framer {
    limit: u32,
    kept: Vec<u8>,
    bad: Option<BadHeader>,
}

impl Model for Framer {
    ghost use Rattle.std.specs.Prelude.{◌≡◌, [], IfSome};
    ghost use Rattle.mqtt_frame.specs.PlainFramer.{PlainFramer};

    ghost Value = { PlainFramer };

    ghost view = { λ f. record {
      limit = f.limit;
      kept = f.kept.items;
      bad = f.bad;
    } };

    // Nothing is kept once the stream has ended.
    ghost invariant = { λ f. IfSome f.bad (λ _. f.kept.items ≡ []) };
}

impl Framer {
    /// A framer to which nothing has come yet. The limit is in bytes, for a whole packet with its header: the Maximum
    /// Packet Size (MQTT 3.1.2.11.4). It takes no memory.
    pub fn new(alloc: Global, limit: u32) -> Framer
        ensures { result ≡ opening limit }
    {
        Framer {
            limit,
            kept: Vec::new(alloc),
            bad: None,
        }
    }

    /// Takes the next piece of the stream, of any length, and adds each packet that became whole, in order: its first
    /// byte, its Remaining Length and as many bytes (MQTT 2.1, 2.1.4). `TooLarge` and `BadLength` come as soon as the
    /// header is there; the packets in front of it are given, and every later piece is refused so. On `Memory` the
    /// framer and `out` are as before, and the same piece may be fed again.
    pub fn feed(&mut self, piece: &[u8], out: &mut Vec<Blob>) -> Result<(), FrameRefused>
        // It is refused exactly where the header of the first packet that isn't given is bad.
        ensures exact { IsAnswer result (fed self.old piece.now).framer.bad }
        ensures packets { (IsErrOf result Memory → ⊥)
            → out.new.items ≡ out.old.items ++ (fed self.old piece.now).packets }
        ensures framer { (IsErrOf result Memory → ⊥) → self.new ≡ (fed self.old piece.now).framer }
        ensures later { IfSome self.old.bad (λ header. result ≡ Err (refusal_of header)) }
        ensures framer_kept { IsErrOf result Memory → self.new ≡ self.old }
        ensures out_kept { IsErrOf result Memory → out.new.items ≡ out.old.items }
    {
        if let Some(header) = self.bad {
            return Err(FrameRefused::from(header));
        }
        let alloc = *self.kept.allocator();
        let kept = self.kept.len();
        let given = out.len();
        match frame_piece(alloc, self.limit, &mut self.kept, piece, out) {
            Ok(None) => Ok(()),
            Ok(Some(header)) => {
                self.bad = Some(header);
                self.kept.clear();
                Err(FrameRefused::from(header))
            }
            Err(_) => {
                self.kept.truncate(kept);
                out.truncate(given);
                Err(FrameRefused::Memory)
            }
        }
    }
}
