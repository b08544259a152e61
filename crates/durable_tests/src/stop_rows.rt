// A journal whose calls fail, each in turn, and every image of each of these moments.
ghost use Rattle.std.specs.Prelude.{◌≡◌, ◌<◌, IfSome, IsTrue, Some, true, false};
ghost use Rattle.session_codec.specs.HasSpelling.{have_spelling};
ghost use Rattle.pair_log.specs.declared.doubt.Doubt.TheVariants.{Nothing};

use crate::digits::bytes_of;
use crate::disks::{disk_with, held_on, text_after};
use crate::held::Held;
use disk_memory::MemoryDisk;
use gated_log::Settled;
use session_codec::{SECOND_FORMAT, read_changes};
use session_journal::Journal;
use session_state::Change;
use std::alloc::Global;
use std::test::Fail;

// With the session of client `a`, and after it ended.
const BEFORE: &str = "a1 3600 - 1/1 0/0 0/0/0, next 2";

const AFTER: &str = "next 2";

// The changes of a record, where there is one shard.
fn changes_of(alloc: Global, words: &str) -> Option<Vec<Change>>
    ensures { IfSome result (λ changes. IsTrue (have_spelling SECOND_FORMAT 1 changes.items)) }
{
    let bytes = bytes_of(alloc, words).ok()?;
    match read_changes(alloc, &bytes, 1, SECOND_FORMAT) {
        Ok(changes) => Some(changes),
        Err(_) => None,
    }
}

// Commits the changes of a record: whether that was done.
fn commit(alloc: Global, held: &mut Held<MemoryDisk>, words: &str) -> Option<bool>
    requires rests { held.old.journal.pair.doubt ≡ Nothing }
    requires shards { held.old.journal.asked.shards ≡ 1 }
    ensures done { result ≡ Some true → held.new.journal.pair.doubt ≡ Nothing }
    ensures in_doubt { result ≡ Some false → held.new.journal.pair.doubt ≡ Nothing → ⊥ }
    ensures shards { held.new.journal.asked.shards ≡ 1 }
{
    let changes = changes_of(alloc, words)?;
    held.commit(&changes)
}

// A journal with the session of client `a`.
fn begun(alloc: Global) -> Option<Held<MemoryDisk>>
    ensures rests { IfSome result (λ h. h.journal.pair.doubt ≡ Nothing) }
    ensures shards { IfSome result (λ h. h.journal.asked.shards ≡ 1) }
{
    let mut held = held_on(alloc, MemoryDisk::new(alloc), MemoryDisk::new(alloc))?;
    if commit(alloc, &mut held, "0001 01 A N8 00000e10 0200") != Some(true) {
        return None;
    }
    Some(held)
}

// The same in the first format, so that the next commit rewrites it.
fn begun_before(alloc: Global) -> Option<Held<MemoryDisk>>
    ensures rests { IfSome result (λ h. h.journal.pair.doubt ≡ Nothing) }
    ensures shards { IfSome result (λ h. h.journal.asked.shards ≡ 1) }
{
    let first = disk_with(alloc, "N8 01010100 N8 Z4 | 0001 01 A N8 00000e10")?;
    held_on(alloc, first, MemoryDisk::new(alloc))
}

// The session ends while a call fails on a disk, 0 for none.
fn ended(
    alloc: Global,
    held: Held<MemoryDisk>,
    disk: usize,
    failing: u32,
) -> Option<Held<MemoryDisk>>
    requires rests { held.journal.pair.doubt ≡ Nothing }
    requires shards { held.journal.asked.shards ≡ 1 }
    requires disk { disk < 2 }
{
    let mut held = held;
    held.arm(disk, failing).ok()?;
    if commit(alloc, &mut held, "0001 02 A")? != (failing == 0) {
        return None;
    }
    Some(held)
}

// What the letter o or n stands for.
fn held_by(letter: u8) -> &'static str {
    if letter == b'o' { BEFORE } else { AFTER }
}

fn after_commit(alloc: Global, failing: u32, image: u8) -> Option<String> {
    let held = begun(alloc)?;
    let held = ended(alloc, held, 0, failing)?;
    text_after(alloc, held.into_journal(), image)
}

fn after_rewrite(alloc: Global, failing: u32, image: u8) -> Option<String> {
    let held = begun_before(alloc)?;
    let held = ended(alloc, held, 1, failing)?;
    text_after(alloc, held.into_journal(), image)
}

// A letter for what a settle answers.
fn settled(journal: &mut Journal<MemoryDisk>) -> u8
    requires { journal.old.pair.doubt ≡ Nothing → ⊥ }
{
    match journal.settle() {
        Ok(Settled::In) => b'I',
        Ok(Settled::Out) => b'O',
        Err(_) => b'F',
    }
}

// A journal whose commit fails, and then its settle: what that answers, and what an image holds.
fn after_settle(alloc: Global, failing: u32, later: u32, image: u8) -> Option<(u8, String)> {
    let mut held = begun(alloc)?;
    held.arm(0, failing).ok()?;
    if commit(alloc, &mut held, "0001 02 A") != Some(false) {
        return None;
    }
    let mut journal = held.into_journal();
    journal.arm(0, later).ok()?;
    let answer = settled(&mut journal);
    let text = text_after(alloc, journal, image)?;
    Some((answer, text))
}

// Each row is the call of a commit that fails, 0 for none, and what each image holds: o before it, n after it.
#[test]
fn a_crash_inside_a_commit_leaves_the_sessions_before_or_after(
    rt: HostRuntime,
) -> Result<(), Fail> {
    let rows: [(u32, [u8; 5]); 5] = [
        (0, *b"nnnnn"),
        (1, *b"ooooo"),
        (2, *b"ooooo"),
        (3, *b"ononn"),
        (4, *b"ononn"),
    ];
    for (failing, letters) in rows {
        for (image, letter) in letters.iter().enumerate() {
            let held = after_commit(rt.alloc(), failing, image as u8);
            assert_eq!(rt;
                held.as_deref(),
                Some(held_by(*letter)),
                "at {failing} and {image}"
            );
        }
    }
    Ok(())
}

// The same of a commit that rewrites: the standby is restarted by two calls, and then the snapshot committed by four.
#[test]
fn a_crash_inside_a_rewrite_leaves_the_sessions_before_or_after(
    rt: HostRuntime,
) -> Result<(), Fail> {
    let rows: [(u32, [u8; 5]); 7] = [
        (0, *b"nnnnn"),
        (1, *b"ooooo"),
        (2, *b"ooooo"),
        (3, *b"ooooo"),
        (4, *b"ooooo"),
        (5, *b"ononn"),
        (6, *b"ononn"),
    ];
    for (failing, letters) in rows {
        for (image, letter) in letters.iter().enumerate() {
            let held = after_rewrite(rt.alloc(), failing, image as u8);
            assert_eq!(rt;
                held.as_deref(),
                Some(held_by(*letter)),
                "at {failing} and {image}"
            );
        }
    }
    Ok(())
}

// Each row is the call of a commit that fails, the call of the settle behind it that fails, 0 for none, its answer, In, Out
// or a fault, and what each image holds then. A settle syncs and reads the gate.
#[test]
fn a_settle_tells_what_every_image_holds(rt: HostRuntime) -> Result<(), Fail> {
    let rows: [(u32, u32, u8, [u8; 5]); 8] = [
        (1, 0, b'O', *b"ooooo"),
        (2, 0, b'O', *b"ooooo"),
        (3, 0, b'O', *b"ooooo"),
        (4, 0, b'I', *b"nnnnn"),
        (3, 1, b'F', *b"ononn"),
        (3, 2, b'F', *b"ooooo"),
        (4, 1, b'F', *b"ononn"),
        (4, 2, b'F', *b"nnnnn"),
    ];
    for (failing, later, answer, letters) in rows {
        for (image, letter) in letters.iter().enumerate() {
            let held = after_settle(rt.alloc(), failing, later, image as u8);
            let Some((given, text)) = held else {
                assert!(rt; false, "at {failing}, {later} and {image}");
                return Ok(());
            };
            assert_eq!(rt; given, answer, "at {failing} and {later}");
            assert_eq!(rt;
                &*text,
                held_by(*letter),
                "at {failing}, {later} and {image}"
            );
        }
    }
    Ok(())
}
