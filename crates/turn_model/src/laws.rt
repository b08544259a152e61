ghost use Rattle.std.specs.Prelude.{◌≡◌, [], ◌∷◌, ◌++◌, ℕ, Bool, false, List, All, bytes_eq};
ghost use Rattle.topic_model.specs.Profile.{Profile, Config};
ghost use Rattle.session_model.specs.PlainSession.{PlainSession, session_of};
ghost use Rattle.session_model.specs.Acting.{act_all};
ghost use Rattle.mqtt_packet.specs.Packet.{PlainPacket};
ghost use Rattle.turn_model.specs.PlainConnection.{PlainConnection};
ghost use Rattle.turn_model.specs.Step.{Setting, Outcome};
ghost use Rattle.turn_model.specs.PacketStep.{packet_step};
ghost use Rattle.turn_model.specs.Worker.{Worker};
ghost use Rattle.turn_model.specs.WorkerMoves.{WorkerMove, worker_step, worker_outs, worker_acks};
ghost use Rattle.turn_model.specs.Records.{Stepped, stepped_all};
ghost use Rattle.turn_model.specs.Records.{stepped_on};
ghost use Rattle.turn_model.specs.Allowed.{worker_allows};
ghost use Rattle.turn_model.specs.Step.{AreOf};

/// A law: a packet of a bound connection changes the session of its own client, and leaves that of each other client as
/// it was, whatever the packet is and whatever was answered to what it asked for.
pub fn a_packet_keeps_to_its_session()
    ensures own { (s : Setting) (k : PlainConnection) (m : PlainSession) (packet : PlainPacket)
        (outcomes : List Outcome) → AreOf m.client (packet_step s k m packet outcomes).changes }
    ensures others { (s : Setting) (k : PlainConnection) (m : PlainSession) (packet : PlainPacket)
        (outcomes : List Outcome) (other : List ℕ) → bytes_eq m.client other ≡ false →
        session_of other (act_all s.sessions (packet_step s k m packet outcomes).changes)
        ≡ session_of other s.sessions }
{}

/// A law: what packets of a record change is carried from packet to packet, and needn't be worked out from the first
/// one again.
pub fn steps_are_carried()
    ensures { (s : Setting) (k : PlainConnection) (packets : List PlainPacket)
        (packet : PlainPacket) (st : Stepped) →
        stepped_all s k (packets ++ packet ∷ []) st ≡ stepped_on s k packet (stepped_all s k packets st) }
{}

/// A law: a move of a worker that isn't allowed changes nothing, puts out nothing and acknowledges nothing.
pub fn only_allowed_moves_move()
    ensures worker { (profile : Profile) (config : Config) (w : Worker) (move : WorkerMove) →
        worker_allows profile config w move ≡ false → worker_step profile config w move ≡ w }
    ensures outs { (profile : Profile) (config : Config) (w : Worker) (move : WorkerMove) →
        worker_allows profile config w move ≡ false → worker_outs profile config w move ≡ [] }
    ensures acks { (profile : Profile) (config : Config) (w : Worker) (move : WorkerMove) →
        worker_allows profile config w move ≡ false → worker_acks profile config w move ≡ [] }
{}
