ghost use Rattle.std.specs.List.{flat_map};
ghost use Rattle.session_codec.specs.Taking.{Puts};
ghost use Rattle.record_codec.specs.Taking.{spelled_number};

use std::alloc::AllocError;
use wire_fields::{put_u8, put_u16, put_u32, put_u64};

/// A number of one, two, four or eight bytes.
#[derive(Clone, Copy)]
pub(crate) enum Number {
    One(u8),
    Two(u16),
    Four(u32),
    Eight(u64),
}

#[tactic(auto, using(session_codec::specs::PutLaws::parts_begin))]
fn put_number(number: Number, out: &mut Vec<u8>) -> Result<(), AllocError>
    ensures exact { Puts result out.old.items out.new.items (spelled_number number) }
{
    match number {
        Number::One(value) => put_u8(value, out)?,
        Number::Two(value) => put_u16(value, out)?,
        Number::Four(value) => put_u32(value, out)?,
        Number::Eight(value) => put_u64(value, out)?,
    }
    Ok(())
}

// Puts numbers at the end, one after another. On want of memory some of them may stand there.
#[tactic(auto, using(session_codec::specs::PutLaws::parts_begin))]
pub(crate) fn put_numbers(numbers: &[Number], out: &mut Vec<u8>) -> Result<(), AllocError>
    ensures exact { Puts result out.old.items out.new.items
        (flat_map spelled_number numbers.now) }
{
    for number in numbers {
        put_number(*number, out)?;
    }
    Ok(())
}
