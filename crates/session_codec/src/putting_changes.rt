ghost use Rattle.std.specs.Prelude.{◌≤◌, ◌++◌, length, All};
ghost use Rattle.std.specs.List.{flat_map};
ghost use Rattle.wire_fields.specs.Spelled.{spelled_u8, spelled_text};
ghost use Rattle.session_codec.specs.Spelling.{spelled_began, spelled_parted, spelled_subscribed, spelled_replaced, spelled_issued, spelled_passed, spelled_effect, spelled_change, spelled_changes, spelled_batch, spelled_sweep};
ghost use Rattle.session_codec.specs.Taking.{Puts, IsShort, HasShortClient};

use crate::formats::{MOST_CHANGES, SECOND_FORMAT};
use crate::numbers::Number::{Eight, Four, One, Two};
use crate::numbers::put_numbers;
use crate::putting::{put_batch, put_filter_and_sweeps, put_sweep};
use crate::tags::tag_of;
use session_state::{Batch, Began, Change, Effect, Issued, Parted, Passed, Replaced, Subscribed};
use shard_model::Sweep;
use std::alloc::AllocError;
use topic_name::Name;
use wire_fields::{put_text, put_u16};

// Each puts a part of a record at the end. On want of memory some of it may stand there.

fn put_began(began: &Began, out: &mut Vec<u8>) -> Result<(), AllocError>
    ensures exact { Puts result out.old.items out.new.items
        (spelled_began SECOND_FORMAT began.now) }
{
    put_numbers(
        &[
            Eight(began.incarnation),
            Four(began.expiry),
            Two(began.window),
        ],
        out,
    )
}

fn put_parted(parted: &Parted, out: &mut Vec<u8>) -> Result<(), AllocError>
    ensures exact { Puts result out.old.items out.new.items (spelled_parted parted.now) }
{
    put_numbers(&[Four(parted.expiry), Eight(parted.moment)], out)
}

#[tactic(auto, using(crate::specs::PutLaws::parts_begin))]
fn put_subscribed(subscribed: &Subscribed, out: &mut Vec<u8>) -> Result<(), AllocError>
    ensures exact { Puts result out.old.items out.new.items
        (spelled_subscribed subscribed.now) }
{
    put_numbers(
        &[
            Four(subscribed.subscription),
            Four(subscribed.version),
            One(subscribed.options),
            Four(subscribed.identifier),
        ],
        out,
    )?;
    put_filter_and_sweeps(&subscribed.filter, &subscribed.sweeps, out)?;
    Ok(())
}

fn put_replaced(replaced: &Replaced, out: &mut Vec<u8>) -> Result<(), AllocError>
    ensures exact { Puts result out.old.items out.new.items (spelled_replaced replaced.now) }
{
    put_numbers(
        &[
            Four(replaced.subscription),
            Four(replaced.version),
            One(replaced.options),
            Four(replaced.identifier),
        ],
        out,
    )
}

#[tactic(auto, using(crate::specs::PutLaws::parts_begin))]
fn put_batch_and_sweep(batch: &Batch, sweep: &Sweep, out: &mut Vec<u8>) -> Result<(), AllocError>
    ensures exact { Puts result out.old.items out.new.items
        (spelled_batch batch.now ++ spelled_sweep sweep.now) }
{
    put_batch(batch, out)?;
    put_sweep(sweep, out)?;
    Ok(())
}

#[tactic(auto, using(crate::specs::PutLaws::parts_begin))]
fn put_issued(issued: &Issued, out: &mut Vec<u8>) -> Result<(), AllocError>
    ensures exact { Puts result out.old.items out.new.items (spelled_issued issued.now) }
{
    put_numbers(&[Four(issued.subscription)], out)?;
    put_batch_and_sweep(&issued.batch, &issued.sweep, out)?;
    Ok(())
}

fn put_passed(passed: &Passed, out: &mut Vec<u8>) -> Result<(), AllocError>
    ensures exact { Puts result out.old.items out.new.items (spelled_passed passed.now) }
{
    put_numbers(&[One(passed.track), Eight(passed.number)], out)
}

// What stands behind the client.
#[tactic(auto, using(crate::specs::PutLaws::parts_begin))]
fn put_effect(effect: &Effect, out: &mut Vec<u8>) -> Result<(), AllocError>
    ensures exact { Puts result out.old.items out.new.items
        (spelled_effect SECOND_FORMAT effect.now) }
{
    match effect {
        Effect::Began(began) => put_began(began, out),
        Effect::Ended => Ok(()),
        Effect::Bound(expiry) => put_numbers(&[Four(*expiry)], out),
        Effect::Parted(parted) => put_parted(parted, out),
        Effect::Subscribed(subscribed) => put_subscribed(subscribed, out),
        Effect::Replaced(replaced) => put_replaced(replaced, out),
        Effect::Unsubscribed(number) => put_numbers(&[Four(*number)], out),
        Effect::Issued(issued) => put_issued(issued, out),
        Effect::Acked(number) => put_numbers(&[Eight(*number)], out),
        Effect::Received(number) => put_numbers(&[Eight(*number)], out),
        Effect::Done(number) => put_numbers(&[Eight(*number)], out),
        Effect::Passed(passed) => put_passed(passed, out),
    }
}

// The kind of a change, and its client.
#[tactic(auto, using(crate::specs::PutLaws::parts_begin))]
fn put_kind_and_client(tag: u8, client: &Name, out: &mut Vec<u8>) -> Result<(), AllocError>
    requires { IsShort client.now }
    ensures exact { Puts result out.old.items out.new.items
        (spelled_u8 tag ++ spelled_text client.now) }
{
    put_numbers(&[One(tag)], out)?;
    put_text(client.bytes(), out)?;
    Ok(())
}

#[tactic(auto, using(crate::specs::PutLaws::parts_begin))]
fn put_change(change: &Change, out: &mut Vec<u8>) -> Result<(), AllocError>
    requires { HasShortClient change.now }
    ensures exact { Puts result out.old.items out.new.items
        (spelled_change SECOND_FORMAT change.now) }
{
    put_kind_and_client(tag_of(&change.effect), &change.client, out)?;
    put_effect(&change.effect, out)?;
    Ok(())
}

#[tactic(auto, using(crate::specs::PutLaws::parts_begin))]
fn put_each(changes: &[Change], out: &mut Vec<u8>) -> Result<(), AllocError>
    requires { All HasShortClient changes.now }
    ensures exact { Puts result out.old.items out.new.items
        (flat_map (spelled_change SECOND_FORMAT) changes.now) }
{
    for change in changes {
        put_change(change, out)?;
    }
    Ok(())
}

// How many changes there are, and these.
#[tactic(auto, using(crate::specs::PutLaws::parts_begin))]
pub(crate) fn put_changes(changes: &[Change], out: &mut Vec<u8>) -> Result<(), AllocError>
    requires clients { All HasShortClient changes.now }
    requires few { length changes.now ≤ MOST_CHANGES }
    ensures exact { Puts result out.old.items out.new.items
        (spelled_changes SECOND_FORMAT changes.now) }
{
    put_u16(changes.len() as u16, out)?;
    put_each(changes, out)?;
    Ok(())
}
