/// How far a subscription is in a shard. In its generation all wanted messages below the base are issued; between base
/// and target those of earlier streams, and of this stream those below the position.
#[derive(Clone, Copy, Debug, PartialEq, Eq)]
pub struct Sweep {
    pub generation: u64,
    pub base: u64,
    pub target: u64,
    pub stream: u32,
    pub position: u64,
}
