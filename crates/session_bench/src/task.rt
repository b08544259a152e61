// What the words of a call ask for.
ghost use Rattle.std.specs.Prelude.{◌≡◌, ◌≤◌, IfSome};

/// What is to be done.
#[derive(Clone, Copy, Debug, PartialEq, Eq)]
pub(crate) enum Task {
    /// So many commits of one acknowledgement, of a session with at most so many unfinished deliveries.
    Commits { count: u64, unfinished: u16 },
    /// So many such commits with one unfinished delivery, and then so many mounts.
    Mounts { count: u64, mounts: u64 },
    /// So many sessions, of which a snapshot is written so many times.
    Snapshots { sessions: u64, times: u64 },
}

// The most that a number may be.
const MOST: u64 = 1_000_000;

// The most unfinished deliveries.
const MOST_UNFINISHED: u64 = 500;

// The most sessions.
const MOST_SESSIONS: u64 = 4_096;

/// The task that three words ask for; `None` for other words.
pub(crate) fn read_task(words: &[String]) -> Option<Task> {
    match words {
        [name, count, more] => task_of(name, count, more),
        _ => None,
    }
}

fn task_of(name: &str, count: &str, more: &str) -> Option<Task> {
    if name == "commits" {
        let count = number_of(count, MOST)?;
        let unfinished = number_of(more, MOST_UNFINISHED)? as u16;
        return Some(Task::Commits { count, unfinished });
    }
    if name == "mounts" {
        let count = number_of(count, MOST)?;
        let mounts = number_of(more, MOST)?;
        return Some(Task::Mounts { count, mounts });
    }
    if name == "snapshots" {
        let sessions = number_of(count, MOST_SESSIONS)?;
        let times = number_of(more, MOST)?;
        return Some(Task::Snapshots { sessions, times });
    }
    None
}

// The number that a word writes, if it is at most another.
fn number_of(word: &str, most: u64) -> Option<u64>
    ensures { IfSome result (λ n. n ≤ most) }
{
    match word.parse::<u64>() {
        Ok(number) => at_most(number, most),
        Err(_) => None,
    }
}

fn at_most(number: u64, most: u64) -> Option<u64>
    ensures { IfSome result (λ n. n ≤ most) }
{
    if number <= most { Some(number) } else { None }
}
