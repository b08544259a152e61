// The subscriptions of a session, and what a change does to one of them.
ghost use Rattle.std.specs.Prelude.{◌≡◌, ◌==◌, ◌<◌, ◌^◌, false, [], find, slice_set, IfOk};
ghost use Rattle.std.specs.Option.{option_copied};
ghost use Rattle.topic_model.specs.Levels.{text_of_levels};
ghost use Rattle.session_model.specs.Acting.{changed_if};
ghost use Rattle.session_state.specs.KeptSub.{KeptSub};
ghost use Rattle.session_state.specs.KeptActing.{on_sub, new_sub};
ghost use Rattle.session_state.specs.KeptFits.{live_count, text_bytes};

use crate::{Sub, Subscribed};
use shard_model::Sweep;
use std::alloc::AllocError;

// The first with this number.
pub(crate) fn find_sub(subs: &[Sub], number: u32) -> Option<&Sub>
    ensures { option_copied result ≡ find (λ (s : KeptSub). s.number == number) subs.now }
{
    subs.iter().find(|sub| sub.number == number)
}

// How many are live.
pub(crate) fn live_count(subs: &[Sub]) -> usize
    ensures { result ≡ live_count subs.now }
{
    subs.iter().filter(|sub| sub.live).count()
}

// How many bytes their filter texts have together.
pub(crate) fn text_bytes(subs: &[Sub]) -> u64
    requires { text_bytes subs.now < 2 ^ 64 }
    ensures { result ≡ text_bytes subs.now }
{
    let mut bytes = 0;
    for sub in subs {
        bytes += sub.filter.text().len() as u64;
    }
    bytes
}

// Those with this number have this version from now on.
pub(crate) fn set_version(subs: &mut [Sub], number: u32, version: u32)
    ensures { subs.new ≡ on_sub number (λ (s : KeptSub). record s { version = version }) subs.old }
{
    for sub in subs.iter_mut() {
        set_one_version(sub, number, version);
    }
}

fn set_one_version(sub: &mut Sub, number: u32, version: u32)
    ensures { sub.new ≡ changed_if (sub.old.number == number)
        (λ (s : KeptSub). record s { version = version }) sub.old }
{
    if sub.number == number {
        sub.version = version;
    }
}

// Those with this number have ended.
pub(crate) fn end_sub(subs: &mut [Sub], number: u32)
    ensures { subs.new
        ≡ on_sub number (λ (s : KeptSub). record s { live = false; sweeps = [] }) subs.old }
{
    for sub in subs.iter_mut() {
        end_one(sub, number);
    }
}

fn end_one(sub: &mut Sub, number: u32)
    ensures { sub.new ≡ changed_if (sub.old.number == number)
        (λ (s : KeptSub). record s { live = false; sweeps = [] }) sub.old }
{
    if sub.number == number {
        sub.live = false;
        sub.sweeps.clear();
    }
}

// Those with this number are in a shard at this sweep from now on.
pub(crate) fn set_sweep(subs: &mut [Sub], number: u32, shard: u8, sweep: Sweep)
    ensures { subs.new
        ≡ on_sub number (λ (s : KeptSub). record s { sweeps = slice_set s.sweeps shard sweep }) subs.old }
{
    for sub in subs.iter_mut() {
        set_one_sweep(sub, number, shard, sweep);
    }
}

fn set_one_sweep(sub: &mut Sub, number: u32, shard: u8, sweep: Sweep)
    ensures { sub.new ≡ changed_if (sub.old.number == number)
        (λ (s : KeptSub). record s { sweeps = slice_set s.sweeps shard sweep }) sub.old }
{
    if sub.number == number {
        write_sweep(&mut sub.sweeps, shard, sweep);
    }
}

fn write_sweep(sweeps: &mut Vec<Sweep>, shard: u8, sweep: Sweep)
    ensures { sweeps.new.items ≡ slice_set sweeps.old.items shard sweep }
{
    if let Some(place) = sweeps.get_mut(shard as usize) {
        *place = sweep;
    }
}

// A new one as a change has it.
pub(crate) fn new_sub(new: &Subscribed) -> Result<Sub, AllocError>
    ensures { IfOk result (λ sub. sub ≡ new_sub new.now) }
{
    let filter = new.filter.copy()?;
    let sweeps = new.sweeps.clone()?;
    Ok(Sub {
        number: new.subscription,
        live: true,
        version: new.version,
        filter,
        sweeps,
    })
}
