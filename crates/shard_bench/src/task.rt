// What the words of a call ask for.
ghost use Rattle.std.specs.Prelude.{◌≤◌, IfSome};

/// What is to be done.
#[derive(Clone, Copy, Debug, PartialEq, Eq)]
pub(crate) enum Kind {
    /// So many appends to a new shard.
    Appends,
    /// Mounts of a shard after so many appends.
    Mounts,
    /// The bytes on disk after so many appends.
    Bytes,
}

/// So many appends, of a group of 64 or of 1, and how often.
#[derive(Clone, Copy, Debug, PartialEq, Eq)]
pub(crate) struct Task {
    pub(crate) kind: Kind,
    pub(crate) count: u64,
    pub(crate) many: bool,
    pub(crate) times: u64,
}

// The most that a number may be.
const MOST: u64 = 1_000_000;

/// The task that four words ask for; `None` for other words.
pub(crate) fn read_task(words: &[String]) -> Option<Task> {
    match words {
        [name, count, size, times] => task_of(name, count, size, times),
        _ => None,
    }
}

fn task_of(name: &str, count: &str, size: &str, times: &str) -> Option<Task> {
    let kind = kind_of(name)?;
    let many = is_many(size)?;
    let count = number_of(count, MOST)?;
    let times = number_of(times, MOST)?;
    Some(Task {
        kind,
        count,
        many,
        times,
    })
}

fn kind_of(name: &str) -> Option<Kind> {
    if name == "appends" {
        return Some(Kind::Appends);
    }
    if name == "mounts" {
        return Some(Kind::Mounts);
    }
    if name == "bytes" {
        return Some(Kind::Bytes);
    }
    None
}

fn is_many(size: &str) -> Option<bool> {
    if size == "1" {
        return Some(false);
    }
    if size == "64" {
        return Some(true);
    }
    None
}

// The number that a word writes, if it is at most another.
fn number_of(word: &str, most: u64) -> Option<u64>
    ensures { IfSome result (λ n. n ≤ most) }
{
    match word.parse::<u64>() {
        Ok(number) => at_most(number, most),
        Err(_) => None,
    }
}

fn at_most(number: u64, most: u64) -> Option<u64>
    ensures { IfSome result (λ n. n ≤ most) }
{
    if number <= most { Some(number) } else { None }
}
