ghost use Rattle.std.specs.Prelude.{◌≡◌, length, Ok};
ghost use Rattle.session_journal.specs.Committed.{heads_after};
ghost use Rattle.session_journal.specs.Fold.{format_told};

use gated_log::Settled;

/// The format of a snapshot and how many bytes it has, without its epoch.
#[derive(Clone, Copy, Debug, PartialEq, Eq)]
pub(crate) struct Head {
    pub(crate) format: u8,
    pub(crate) bytes: u64,
}

// The head of these bytes.
pub(crate) fn head_of(bytes: &[u8]) -> Head
    ensures format { result.format ≡ format_told bytes.now }
    ensures bytes { result.bytes ≡ length bytes.now }
{
    Head {
        format: bytes.first().copied().unwrap_or(0),
        bytes: bytes.len() as u64,
    }
}

// The heads of a journal after a settle: that of the snapshot that counts, twice, as nothing is in doubt then.
pub(crate) fn settled_heads(settled: Settled, head: Head, next: Head) -> (Head, Head)
    ensures { result ≡ heads_after (Ok settled) head next }
{
    match settled {
        Settled::In => (next, next),
        Settled::Out => (head, head),
    }
}
