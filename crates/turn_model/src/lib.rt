//! One turn of a worker as definitions: what goes out to a subscription, what a packet does, what a pump issues, and a
//! worker with its moves.
//!
//! Nothing here runs. The step of a packet says what it asks of a shard, changes, is answered and closes; the moves of
//! a worker are its records, what it puts out, and its connections; a part of a turn is a list of moves, with what then
//! stands beside the worker and what comes of it.
//!
//! Read `specs/Delivery.antt`, `specs/PlainConnection.antt` and `specs/SessionStep.antt` first; then `specs/Step.antt`
//! with `specs/PublishStep.antt`, `specs/ConnectStep.antt` and `specs/PacketStep.antt`; then what a pump does,
//! `specs/Batch.antt`, `specs/Pump.antt`, `specs/MayIssue.antt` and `specs/Resend.antt`. `specs/Worker.antt` and
//! `specs/WorkerMoves.antt` have the worker and its moves, `specs/Allowed.antt` which are allowed; `specs/Draft.antt`,
//! `specs/Pieces.antt` and `specs/Parts.antt` the parts of a turn. The laws stand in `src/laws.rt`,
//! `src/delivery_laws.rt`, `src/issue_laws.rt` and `src/pump_laws.rt`.
#![tactic(auto)]

mod delivery_laws;
mod issue_laws;
mod laws;
mod pump_laws;

pub use delivery_laws::delivery_length_is_exact;
pub use issue_laws::the_test_is_the_relation;
pub use laws::{a_packet_keeps_to_its_session, only_allowed_moves_move, steps_are_carried};
pub use pump_laws::{a_batch_may_be_issued, counting_stays, what_is_pumped_may_be_issued};
