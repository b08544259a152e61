// Ascending numbers.
ghost use Rattle.std.specs.Prelude.{◌≡◌, ◌≢◌, ◌+◌, ◌<◌, ◌≤◌, ℕ, length, take, slice_get, slice_index, Some};
ghost use Rattle.std.specs.List.Sorted.{IsStrictlyIncreasing};
ghost use Rattle.session_model.specs.Acting.{numbers_from};
ghost use Rattle.session_model.specs.PlainSession.{has};
ghost use Rattle.seq_tracks.specs.InOrder.{ascend};

// Whether these ascend, all above one number and none past another.
pub(crate) fn ascend(above: u64, last: u64, numbers: &[u64]) -> bool
    ensures { result ≡ ascend above last numbers.now }
{
    let mut before = above;
    for number in numbers {
        if *number <= before || last < *number {
            return false;
        }
        before = *number;
    }
    true
}

// Whether the number is one of these, which ascend.
pub(crate) fn has(numbers: &[u64], number: u64) -> bool
    requires { IsStrictlyIncreasing numbers.now }
    ensures { result ≡ has numbers.now number }
{
    numbers.binary_search(&number).is_ok()
}

// The first place among these, which ascend, whose number isn't less; behind the last where there is none.
pub(crate) fn place_of(numbers: &[u64], number: u64) -> usize
    requires { IsStrictlyIncreasing numbers.now }
    ensures within { result ≤ length numbers.now }
    ensures before { (k : ℕ) → k < result → slice_index numbers.now k < number }
    ensures behind { (k : ℕ) → result ≤ k → k < length numbers.now
        → number ≤ slice_index numbers.now k }
{
    match numbers.binary_search(&number) {
        Ok(place) => place,
        Err(place) => place,
    }
}

// How many at the front go on from the number, without a gap.
pub(crate) fn run_behind(number: u64, numbers: &[u64]) -> usize
    ensures within { result ≤ length numbers.now }
    ensures run { take result numbers.now ≡ numbers_from (number + 1) result }
    ensures ends { slice_get numbers.now result ≢ Some (number + 1 + result) }
{
    let mut last = number;
    for (count, next) in numbers.iter().enumerate() {
        if *next <= last || *next - last != 1 {
            return count;
        }
        last = *next;
    }
    numbers.len()
}
