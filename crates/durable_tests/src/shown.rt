// A session in short words.
use seq_tracks::Tracks;
use session_model::Version;
use session_state::{Batch, Session, Sessions, Sub};
use std::alloc::{AllocError, Global};

// `parted` as its moment, or `-` where a connection holds the session.
fn parting(alloc: Global, session: &Session) -> Result<String, AllocError> {
    match session.parted() {
        Some(moment) => format!(in alloc; "{moment}"),
        None => format!(in alloc; "-"),
    }
}

// acked/issued1 complete/received/issued2, and each number that is done out of order.
fn tracks(alloc: Global, of: &Tracks) -> Result<String, AllocError> {
    let marks = format!(in alloc;
        "{}/{} {}/{}/{}",
        of.acked(),
        of.issued1(),
        of.complete(),
        of.received(),
        of.issued2()
    )?;
    let mut text = marks;
    for number in of.done() {
        text.push_str(&format!(in alloc; " d{number}")?)?;
    }
    Ok(text)
}

// Its number with a sign for live or ended, and its present version; then the position of each sweep.
fn sub(alloc: Global, of: &Sub) -> Result<String, AllocError> {
    let sign = if of.live { '+' } else { '-' };
    let mut text = format!(in alloc; " s{}{sign}v{}", of.number, of.version)?;
    for sweep in &of.sweeps {
        text.push_str(&format!(in alloc; "@{}", sweep.position)?)?;
    }
    Ok(text)
}

fn version(alloc: Global, of: &Version) -> Result<String, AllocError> {
    format!(in alloc; " v{}:{}", of.number, of.options)
}

fn batch(alloc: Global, of: &Batch) -> Result<String, AllocError> {
    format!(in alloc; " b{}-{}", of.from, of.to)
}

// Expiry, parting, next numbers, tracks, subscriptions, versions and batches.
fn session(alloc: Global, of: &Session) -> Result<String, AllocError> {
    let parted = parting(alloc, of)?;
    let marks = tracks(alloc, of.tracks())?;
    let mut text = format!(in alloc;
        "{} {parted} {}/{} {marks}",
        of.expiry(),
        of.next_sub(),
        of.next_version()
    )?;
    for one in of.subs() {
        text.push_str(&sub(alloc, one)?)?;
    }
    for one in of.versions() {
        text.push_str(&version(alloc, one)?)?;
    }
    for one in of.batches() {
        text.push_str(&batch(alloc, one)?)?;
    }
    Ok(text)
}

/// Each session behind its client and its number, and the next number.
pub(crate) fn shown(alloc: Global, sessions: &Sessions) -> Result<String, AllocError> {
    let mut text = String::new(alloc);
    for place in 0..sessions.len() {
        if let Some(one) = sessions.at(place) {
            let words = session(alloc, one)?;
            text.push_str(&format!(in alloc;
                "{}{} {words}, ",
                one.client().text(),
                one.incarnation()
            )?)?;
        }
    }
    text.push_str(&format!(in alloc; "next {}", sessions.next_incarnation())?)?;
    Ok(text)
}
