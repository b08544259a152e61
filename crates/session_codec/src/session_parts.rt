ghost use Rattle.session_state.specs.SoundTest.{is_sound};
ghost use Rattle.session_codec.specs.Parts.{session_with, tested};
ghost use Rattle.session_codec.specs.Taking.{GivesPart};

use crate::refused::CodecRefused;
use seq_tracks::Tracks;
use session_model::Version;
use session_state::{Batch, Session, SessionParts, Sub};
use topic_name::Name;

/// Whose session it is, and what its connection told.
#[derive(Drop)]
pub(crate) struct Holder {
    pub client: Name,
    pub incarnation: u64,
    pub expiry: u32,
    pub window: u16,
    pub parted: Option<u64>,
}

/// What a session keeps.
#[derive(Drop)]
pub(crate) struct Kept {
    pub next_sub: u32,
    pub next_version: u32,
    pub tracks: Tracks,
    pub subs: Vec<Sub>,
    pub versions: Vec<Version>,
    pub batches: Vec<Batch>,
}

// The session of these parts. `Bad` exactly where it may not be held.
pub(crate) fn session_of(holder: Holder, kept: Kept) -> Result<Session, CodecRefused>
    ensures exact { GivesPart (λ s. s) result (tested is_sound (session_with holder kept)) }
{
    let parts = SessionParts {
        client: holder.client,
        incarnation: holder.incarnation,
        window: holder.window,
        expiry: holder.expiry,
        parted: holder.parted,
        next_sub: kept.next_sub,
        next_version: kept.next_version,
        tracks: kept.tracks,
        subs: kept.subs,
        versions: kept.versions,
        batches: kept.batches,
    };
    match Session::of(parts) {
        Some(session) => Ok(session),
        None => Err(CodecRefused::Bad),
    }
}
