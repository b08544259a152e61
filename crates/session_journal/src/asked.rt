ghost use Rattle.std.specs.Prelude.{◌≡◌, ◌<◌};
ghost use Rattle.session_journal.specs.Mounting.{disk_number};

/// What a journal is asked to be: how many shards and workers there are, and which worker it is of.
#[derive(Clone, Copy, Debug, PartialEq, Eq)]
pub struct Asked {
    /// How many shards there are, at most 8.
    pub shards: u8,
    /// How many workers there are.
    pub workers: u8,
    /// The worker's number, from 0 on.
    pub worker: u8,
}

// The number of the disk on a side, 0 or 1, of the pair.
pub(crate) fn disk_number(asked: Asked, side: u8) -> u16
    requires { side < 2 }
    ensures { result ≡ disk_number asked side }
{
    10 * u16::from(asked.shards) + 2 * u16::from(asked.worker) + u16::from(side)
}
