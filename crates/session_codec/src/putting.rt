ghost use Rattle.std.specs.Prelude.{◌++◌, All};
ghost use Rattle.std.specs.List.{flat_map};
ghost use Rattle.wire_fields.specs.Spelled.{spelled_text};
ghost use Rattle.session_codec.specs.Spelling.{spelled_filter, spelled_sweep, spelled_sweeps, spelled_version, spelled_batch};
ghost use Rattle.session_codec.specs.Taking.{Puts};

use crate::numbers::Number::{Eight, Four, One, Two};
use crate::numbers::put_numbers;
use session_model::Version;
use session_state::Batch;
use shard_model::Sweep;
use std::alloc::AllocError;
use topic_name::Filter;
use wire_fields::put_text;

// Each puts a part at the end. On want of memory some of it may stand there.

pub(crate) fn put_sweep(sweep: &Sweep, out: &mut Vec<u8>) -> Result<(), AllocError>
    ensures exact { Puts result out.old.items out.new.items (spelled_sweep sweep.now) }
{
    put_numbers(
        &[
            Eight(sweep.generation),
            Eight(sweep.base),
            Eight(sweep.target),
            Four(sweep.stream),
            Eight(sweep.position),
        ],
        out,
    )
}

#[tactic(auto, using(crate::specs::PutLaws::parts_begin))]
pub(crate) fn put_sweeps(sweeps: &[Sweep], out: &mut Vec<u8>) -> Result<(), AllocError>
    ensures exact { Puts result out.old.items out.new.items (spelled_sweeps sweeps.now) }
{
    for sweep in sweeps {
        put_sweep(sweep, out)?;
    }
    Ok(())
}

// The text of a filter.
#[tactic(auto, using(crate::specs::PutLaws::parts_begin))]
fn put_filter(filter: &Filter, out: &mut Vec<u8>) -> Result<(), AllocError>
    ensures exact { Puts result out.old.items out.new.items (spelled_filter filter.now) }
{
    put_text(filter.text().as_bytes(), out)?;
    Ok(())
}

// A filter, and where its subscription is in each shard.
#[tactic(auto, using(crate::specs::PutLaws::parts_begin))]
pub(crate) fn put_filter_and_sweeps(
    filter: &Filter,
    sweeps: &[Sweep],
    out: &mut Vec<u8>,
) -> Result<(), AllocError>
    ensures exact { Puts result out.old.items out.new.items
        (spelled_filter filter.now ++ spelled_sweeps sweeps.now) }
{
    put_filter(filter, out)?;
    put_sweeps(sweeps, out)?;
    Ok(())
}

pub(crate) fn put_version(version: &Version, out: &mut Vec<u8>) -> Result<(), AllocError>
    ensures exact { Puts result out.old.items out.new.items (spelled_version version.now) }
{
    put_numbers(
        &[
            Four(version.number),
            Four(version.subscription),
            One(version.options),
            Four(version.identifier),
        ],
        out,
    )
}

pub(crate) fn put_batch(batch: &Batch, out: &mut Vec<u8>) -> Result<(), AllocError>
    ensures exact { Puts result out.old.items out.new.items (spelled_batch batch.now) }
{
    put_numbers(
        &[
            Four(batch.version),
            One(batch.shard),
            Eight(batch.generation),
            Four(batch.stream),
            Eight(batch.from),
            Eight(batch.to),
            Four(batch.limit),
            Eight(batch.first1),
            Two(batch.count1),
            Eight(batch.first2),
            Two(batch.count2),
        ],
        out,
    )
}
