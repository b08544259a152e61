ghost use Rattle.std.specs.Prelude.{◌≡◌, ◌++◌, ◌<◌, ◌^◌, length, All};
ghost use Rattle.std.specs.List.{flat_map};
ghost use Rattle.session_codec.specs.Spelling.{spelled_holder, spelled_kept, spelled_session, spelled_sessions, spelled_subs, spelled_versions, spelled_batches, spelled_moment, spelled_tracks};
ghost use Rattle.wire_fields.specs.Spelled.{spelled_u16, spelled_u32, spelled_u64, spelled_text};
ghost use Rattle.session_codec.specs.Taking.{Puts, HasCounts};

use crate::formats::SECOND_FORMAT;
use crate::lists::{put_batches, put_subs, put_versions};
use crate::numbers::Number::{Eight, Four, Two};
use crate::numbers::put_numbers;
use crate::tracks::put_tracks;
use session_state::{Session, Sessions};
use std::alloc::AllocError;
use wire_fields::put_text;

// Each puts a part of a snapshot at the end. On want of memory some of it may stand there.

// The moment of parting, or the greatest number where there was none.
fn moment_of(parted: Option<u64>) -> u64
    ensures { spelled_u64 result ≡ spelled_moment parted }
{
    match parted {
        Some(moment) => moment,
        None => u64::MAX,
    }
}

#[tactic(auto, using(crate::specs::PutLaws::parts_begin))]
fn put_holder(session: &Session, out: &mut Vec<u8>) -> Result<(), AllocError>
    requires { HasCounts session.now }
    ensures exact { Puts result out.old.items out.new.items
        (spelled_holder SECOND_FORMAT session.now) }
{
    put_client(session, out)?;
    put_told(session, out)?;
    Ok(())
}

#[tactic(auto, using(crate::specs::PutLaws::parts_begin))]
fn put_client(session: &Session, out: &mut Vec<u8>) -> Result<(), AllocError>
    requires { HasCounts session.now }
    ensures exact { Puts result out.old.items out.new.items (spelled_text session.now.client) }
{
    put_text(session.client().bytes(), out)?;
    Ok(())
}

// What the connection told.
fn put_told(session: &Session, out: &mut Vec<u8>) -> Result<(), AllocError>
    ensures exact { Puts result out.old.items out.new.items (spelled_u64 session.now.incarnation
        ++ (spelled_u32 session.now.expiry ++ (spelled_u16 session.now.window
        ++ spelled_moment session.now.parted))) }
{
    put_numbers(
        &[
            Eight(session.incarnation()),
            Four(session.expiry()),
            Two(session.window()),
            Eight(moment_of(session.parted())),
        ],
        out,
    )
}

// The numbers of the next subscription and version, and the tracks.
#[tactic(auto, using(crate::specs::PutLaws::parts_begin))]
fn put_next_and_tracks(session: &Session, out: &mut Vec<u8>) -> Result<(), AllocError>
    requires { HasCounts session.now }
    ensures exact { Puts result out.old.items out.new.items (spelled_u32 session.now.next_sub
        ++ (spelled_u32 session.now.next_version ++ spelled_tracks session.now.tracks)) }
{
    put_next(session, out)?;
    put_tracks(session.tracks(), out)?;
    Ok(())
}

fn put_next(session: &Session, out: &mut Vec<u8>) -> Result<(), AllocError>
    ensures exact { Puts result out.old.items out.new.items
        (spelled_u32 session.now.next_sub ++ spelled_u32 session.now.next_version) }
{
    put_numbers(
        &[Four(session.next_sub()), Four(session.next_version())],
        out,
    )
}

// Versions and batches.
#[tactic(auto, using(crate::specs::PutLaws::parts_begin))]
fn put_issued(session: &Session, out: &mut Vec<u8>) -> Result<(), AllocError>
    requires { HasCounts session.now }
    ensures exact { Puts result out.old.items out.new.items
        (spelled_versions session.now.versions ++ spelled_batches session.now.batches) }
{
    put_versions(session.versions(), out)?;
    put_batches(session.batches(), out)?;
    Ok(())
}

// Subscriptions, versions and batches.
#[tactic(auto, using(crate::specs::PutLaws::parts_begin))]
fn put_lists(session: &Session, out: &mut Vec<u8>) -> Result<(), AllocError>
    requires { HasCounts session.now }
    ensures exact { Puts result out.old.items out.new.items (spelled_subs session.now.subs
        ++ (spelled_versions session.now.versions ++ spelled_batches session.now.batches)) }
{
    put_subs(session.subs(), out)?;
    put_issued(session, out)?;
    Ok(())
}

#[tactic(auto, using(crate::specs::PutLaws::parts_begin))]
fn put_kept(session: &Session, out: &mut Vec<u8>) -> Result<(), AllocError>
    requires { HasCounts session.now }
    ensures exact { Puts result out.old.items out.new.items (spelled_kept session.now) }
{
    put_next_and_tracks(session, out)?;
    put_lists(session, out)?;
    Ok(())
}

#[tactic(auto, using(crate::specs::PutLaws::parts_begin))]
fn put_session(session: &Session, out: &mut Vec<u8>) -> Result<(), AllocError>
    requires { HasCounts session.now }
    ensures exact { Puts result out.old.items out.new.items
        (spelled_session SECOND_FORMAT session.now) }
{
    put_holder(session, out)?;
    put_kept(session, out)?;
    Ok(())
}

#[tactic(auto, using(crate::specs::PutLaws::parts_begin))]
fn put_each(sessions: &Sessions, out: &mut Vec<u8>) -> Result<(), AllocError>
    requires { All HasCounts sessions.now.list }
    ensures exact { Puts result out.old.items out.new.items
        (flat_map (spelled_session SECOND_FORMAT) sessions.now.list) }
{
    for place in 0..sessions.len() {
        let Some(session) = sessions.at(place) else {
            unreachable!()
        };
        put_session(session, out)?;
    }
    Ok(())
}

// The number of the next session, how many there are, and these.
#[tactic(auto, using(crate::specs::PutLaws::parts_begin))]
pub(crate) fn put_sessions(sessions: &Sessions, out: &mut Vec<u8>) -> Result<(), AllocError>
    requires counts { All HasCounts sessions.now.list }
    requires few { length sessions.now.list < 2 ^ 32 }
    ensures exact { Puts result out.old.items out.new.items
        (spelled_sessions SECOND_FORMAT sessions.now) }
{
    let count = sessions.len() as u32;
    put_numbers(&[Eight(sessions.next_incarnation()), Four(count)], out)?;
    put_each(sessions, out)?;
    Ok(())
}
