// What changes make of a session.
ghost use Rattle.std.specs.Prelude.{◌≡◌, ◌++◌, ◌∷◌, [], IsTrue, IfOk, OnOk, OnErr, is_ok, if◌then◌else◌};
ghost use Rattle.topic_model.specs.Profile.{whole};
ghost use Rattle.session_state.specs.KeptActing.{kept_changed};
ghost use Rattle.session_state.specs.KeptFits.{session_fits};

use crate::keeping::{drop_unneeded, tidy};
use crate::subs::{end_sub, new_sub, set_sweep, set_version};
use crate::{Effect, Issued, Parted, Passed, Replaced, Session, Sub, Subscribed};
use session_model::Version;
use std::alloc::AllocError;

impl Session {
    /// Lets a change of this session act, and gives whether it fits; where it doesn't, nothing changes. One that ends
    /// the session changes nothing in it. On want of memory nothing changes.
    pub fn change(&mut self, effect: &Effect) -> Result<bool, AllocError>
        ensures fits { IfOk result (λ fits. fits ≡ session_fits whole self.old effect.now) }
        ensures changed { IfOk result (λ fits. self.new
            ≡ (if fits then kept_changed effect.now self.old else self.old)) }
        ensures memory { OnErr result (self.new ≡ self.old) }
    {
        if !self.fits(effect) {
            return Ok(false);
        }
        self.make(effect)?;
        Ok(true)
    }

    // Lets a change act that fits.
    fn make(&mut self, effect: &Effect) -> Result<(), AllocError>
        requires { IsTrue (session_fits whole self.old effect.now) }
        ensures made { OnOk result (self.new ≡ kept_changed effect.now self.old) }
        ensures memory { OnErr result (self.new ≡ self.old) }
    {
        match effect {
            Effect::Began(_) => self.rest(),
            Effect::Ended => self.rest(),
            Effect::Bound(expiry) => self.bind(*expiry),
            Effect::Parted(parted) => self.part(parted),
            Effect::Subscribed(new) => return self.subscribe(new),
            Effect::Replaced(replaced) => return self.replace(replaced),
            Effect::Unsubscribed(number) => self.unsubscribe(*number),
            Effect::Issued(issued) => return self.issue(issued),
            Effect::Acked(number) => self.acknowledge(*number),
            Effect::Received(number) => self.receive(*number),
            Effect::Done(number) => self.complete(*number),
            Effect::Passed(passed) => self.pass(passed),
        }
        Ok(())
    }

    fn rest(&mut self)
        ensures { self.new ≡ kept_changed Effect.Ended self.old }
    {
        let _sound = &self.client;
    }

    // A connection takes it up.
    fn bind(&mut self, expiry: u32)
        requires { IsTrue (session_fits whole self.old (Effect.Bound expiry)) }
        ensures { self.new ≡ kept_changed (Effect.Bound expiry) self.old }
    {
        self.expiry = expiry;
        self.parted = None;
    }

    // Its connection ends.
    fn part(&mut self, parted: &Parted)
        requires { IsTrue (session_fits whole self.old (Effect.Parted parted.now)) }
        ensures { self.new ≡ kept_changed (Effect.Parted parted.now) self.old }
    {
        self.expiry = parted.expiry;
        self.parted = Some(parted.moment);
    }

    fn subscribe(&mut self, new: &Subscribed) -> Result<(), AllocError>
        requires { IsTrue (session_fits whole self.old (Effect.Subscribed new.now)) }
        ensures made { OnOk result (self.new ≡ kept_changed (Effect.Subscribed new.now) self.old) }
        ensures memory { OnErr result (self.new ≡ self.old) }
    {
        let _order = self.tracks.done();
        let sub = new_sub(new)?;
        let version = Version {
            number: new.version,
            subscription: new.subscription,
            options: new.options,
            identifier: new.identifier,
        };
        push_both(&mut self.subs, &mut self.versions, sub, version)?;
        self.next_sub = new.subscription + 1;
        self.next_version = new.version + 1;
        Ok(())
    }

    // A subscription gets a new version.
    fn replace(&mut self, replaced: &Replaced) -> Result<(), AllocError>
        requires { IsTrue (session_fits whole self.old (Effect.Replaced replaced.now)) }
        ensures made { OnOk result (self.new
            ≡ kept_changed (Effect.Replaced replaced.now) self.old) }
        ensures memory { OnErr result (self.new ≡ self.old) }
    {
        let _order = self.tracks.done();
        let version = Version {
            number: replaced.version,
            subscription: replaced.subscription,
            options: replaced.options,
            identifier: replaced.identifier,
        };
        self.versions.push(version)?;
        self.next_version = replaced.version + 1;
        set_version(&mut self.subs, replaced.subscription, replaced.version);
        drop_unneeded(&self.batches, &mut self.versions, &mut self.subs);
        Ok(())
    }

    fn unsubscribe(&mut self, number: u32)
        requires { IsTrue (session_fits whole self.old (Effect.Unsubscribed number)) }
        ensures { self.new ≡ kept_changed (Effect.Unsubscribed number) self.old }
    {
        let _order = self.tracks.done();
        end_sub(&mut self.subs, number);
        drop_unneeded(&self.batches, &mut self.versions, &mut self.subs);
    }

    fn issue(&mut self, issued: &Issued) -> Result<(), AllocError>
        requires { IsTrue (session_fits whole self.old (Effect.Issued issued.now)) }
        ensures made { OnOk result (self.new ≡ kept_changed (Effect.Issued issued.now) self.old) }
        ensures memory { OnErr result (self.new ≡ self.old) }
    {
        let _order = self.tracks.done();
        let batch = issued.batch;
        self.batches.reserve(1)?;
        self.tracks.issue(batch.count1, batch.count2)?;
        self.batches.push_reserved(batch);
        set_sweep(
            &mut self.subs,
            issued.subscription,
            batch.shard,
            issued.sweep,
        );
        tidy(
            &self.tracks,
            &mut self.batches,
            &mut self.versions,
            &mut self.subs,
        );
        Ok(())
    }

    fn acknowledge(&mut self, number: u64)
        requires { IsTrue (session_fits whole self.old (Effect.Acked number)) }
        ensures { self.new ≡ kept_changed (Effect.Acked number) self.old }
    {
        let _order = self.tracks.done();
        self.tracks.puback(number);
        tidy(
            &self.tracks,
            &mut self.batches,
            &mut self.versions,
            &mut self.subs,
        );
    }

    fn receive(&mut self, number: u64)
        requires { IsTrue (session_fits whole self.old (Effect.Received number)) }
        ensures { self.new ≡ kept_changed (Effect.Received number) self.old }
    {
        let _order = self.tracks.done();
        self.tracks.pubrec(number);
        tidy(
            &self.tracks,
            &mut self.batches,
            &mut self.versions,
            &mut self.subs,
        );
    }

    fn complete(&mut self, number: u64)
        requires { IsTrue (session_fits whole self.old (Effect.Done number)) }
        ensures { self.new ≡ kept_changed (Effect.Done number) self.old }
    {
        let _order = self.tracks.done();
        self.tracks.pubcomp(number);
        tidy(
            &self.tracks,
            &mut self.batches,
            &mut self.versions,
            &mut self.subs,
        );
    }

    fn pass(&mut self, passed: &Passed)
        requires { IsTrue (session_fits whole self.old (Effect.Passed passed.now)) }
        ensures { self.new ≡ kept_changed (Effect.Passed passed.now) self.old }
    {
        let _order = self.tracks.done();
        self.tracks.pass(passed.track, passed.number);
        tidy(
            &self.tracks,
            &mut self.batches,
            &mut self.versions,
            &mut self.subs,
        );
    }
}

// Puts both at the ends, or neither.
fn push_both(
    subs: &mut Vec<Sub>,
    versions: &mut Vec<Version>,
    sub: Sub,
    version: Version,
) -> Result<(), AllocError>
    ensures subs { subs.new.items
        ≡ (if is_ok result then subs.old.items ++ sub ∷ [] else subs.old.items) }
    ensures versions { versions.new.items
        ≡ (if is_ok result then versions.old.items ++ version ∷ [] else versions.old.items) }
{
    versions.reserve(1)?;
    subs.push(sub)?;
    versions.push(version)?;
    Ok(())
}
