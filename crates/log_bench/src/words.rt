// What the words of a call ask for.
ghost use Rattle.std.specs.Prelude.{◌≡◌, ◌≢◌, ◌↔◌, ◌≤◌, [], ◌∷◌, ℕ, length, map, slice_index, string_bytes, Some, IfSome, IsTrue};
ghost use Rattle.std.specs.Fmt.{decimal};
ghost use Rattle.log_bench.specs.Words.{IsReading};

/// What is to be done, beginning with an empty disk.
#[derive(Clone, Copy, Debug, PartialEq, Eq)]
pub enum Task {
    /// So many commits.
    Commits { count: u64 },
    /// So many commits, and then so many mounts of that disk.
    Mounts { count: u64, mounts: u64 },
    /// So many commits, and then so many readings of the record with this number, from 0 on.
    Entries { count: u64, entry: u64, reads: u64 },
}

// The most that a number may be.
const MOST: u64 = 1000000;

/// The task that these words ask for: `commits N`, `mounts N M` or `entries N K M`, where N is 1 to 1,000,000, K is
/// below N, and M is 0 to 1,000,000; `None` for other words.
pub fn read_task(words: &[String]) -> Option<Task>
    ensures { IsReading (map string_bytes words.now) result }
{
    match words {
        [name, count] => read_commits(name, count),
        [name, count, mounts] => read_mounts(name, count, mounts),
        [name, count, entry, reads] => read_entries(name, count, entry, reads),
        _ => None,
    }
}

// The task of these two words, as `read_task` reads it.
fn read_commits(name: &str, count: &str) -> Option<Task>
    ensures { IsReading (name.now ∷ count.now ∷ []) result }
{
    if name != "commits" {
        return None;
    }
    let count = number_of(count, 1, MOST)?;
    Some(Task::Commits { count })
}

// The task of these three words.
fn read_mounts(name: &str, count: &str, mounts: &str) -> Option<Task>
    ensures { IsReading (name.now ∷ count.now ∷ mounts.now ∷ []) result }
{
    if name != "mounts" {
        return None;
    }
    let count = number_of(count, 1, MOST)?;
    let mounts = number_of(mounts, 0, MOST)?;
    Some(Task::Mounts { count, mounts })
}

// The task of these four words.
fn read_entries(name: &str, count: &str, entry: &str, reads: &str) -> Option<Task>
    ensures { IsReading (name.now ∷ count.now ∷ entry.now ∷ reads.now ∷ []) result }
{
    if name != "entries" {
        return None;
    }
    let count = number_of(count, 1, MOST)?;
    let entry = number_of(entry, 0, count - 1)?;
    let reads = number_of(reads, 0, MOST)?;
    Some(Task::Entries {
        count,
        entry,
        reads,
    })
}

// The number that a word writes in decimal, without sign or leading zero; `None` for another word, and for a number
// outside these bounds.
fn number_of(word: &str, least: u64, most: u64) -> Option<u64>
    ensures written { IfSome result (λ n. word.now ≡ decimal n) }
    ensures low { IfSome result (λ n. least ≤ n) }
    ensures high { IfSome result (λ n. n ≤ most) }
    ensures every { (n : ℕ) → least ≤ n → n ≤ most → word.now ≡ decimal n → result ≡ Some n }
{
    if !begins_plainly(word.as_bytes()) {
        return None;
    }
    match word.parse::<u64>() {
        Ok(number) => within(number, least, most),
        Err(_) => None,
    }
}

// Whether a text has no plus sign in front, and no 0 in front of more.
fn begins_plainly(text: &[u8]) -> bool
    ensures { IsTrue result
        ↔ ((slice_index text.now 0 ≢ 43) × (slice_index text.now 0 ≡ 48 → length text.now ≡ 1)) }
{
    match text {
        [b'+', ..] => false,
        [b'0', _, ..] => false,
        _ => true,
    }
}

// A number, if it is within these bounds.
fn within(number: u64, least: u64, most: u64) -> Option<u64>
    ensures some { IfSome result (λ n. (n ≡ number) × (least ≤ number) × (number ≤ most)) }
    ensures every { least ≤ number → number ≤ most → result ≡ Some number }
{
    if least <= number && number <= most {
        Some(number)
    } else {
        None
    }
}
