// The packet identifiers of numbers.
ghost use Rattle.std.specs.Prelude.{◌≡◌, ◌-◌, ◌%◌, ◌<◌, ◌≤◌, ◌⊎◌, ◌≢◌, ℕ, IfSome, IfNone};
ghost use Rattle.seq_tracks.specs.Identifiers.{id_of};

/// How many identifiers each track has. Together they have all but one of the 65,535 that there are (MQTT 2.2.1).
const CYCLE: u64 = 32_767;

/// The packet identifier of a number of track 1 or 2: an odd one on track 1 and an even one on track 2, anew behind 32,767
/// numbers (MQTT 2.2.1).
pub fn id_of(track: u8, seq: u64) -> u16
    requires track { (track ≡ 1) ⊎ (track ≡ 2) }
    requires seq { 1 ≤ seq }
    ensures { result ≡ id_of track seq }
{
    let place = ((seq - 1) % CYCLE) as u16;
    if track == 1 {
        2 * place + 1
    } else {
        2 * place + 2
    }
}

// The number with this identifier on a track behind a mark, not past the last. Fewer than a cycle lie there.
pub(crate) fn seq_between(track: u8, id: u16, mark: u64, last: u64) -> Option<u64>
    requires track { (track ≡ 1) ⊎ (track ≡ 2) }
    requires range { mark ≤ last }
    requires near { last - mark < CYCLE }
    ensures found { IfSome result (λ seq. (mark < seq) × (seq ≤ last) × (id_of track seq ≡ id)) }
    ensures none { IfNone result ((seq : ℕ) → mark < seq → seq ≤ last → id_of track seq ≢ id) }
{
    let place = place_of_id(track, id)?;
    let steps = (place + CYCLE - mark % CYCLE) % CYCLE;
    if last - mark <= steps {
        return None;
    }
    Some(mark + 1 + steps)
}

// Which place in the cycle an identifier of a track has, none where it is no identifier of that track.
fn place_of_id(track: u8, id: u16) -> Option<u64>
    requires track { (track ≡ 1) ⊎ (track ≡ 2) }
    ensures found { IfSome result (λ place. (place < CYCLE)
        × ((seq : ℕ) → 0 < seq → (seq - 1) % CYCLE ≡ place → id_of track seq ≡ id)
        × ((seq : ℕ) → 0 < seq → id_of track seq ≡ id → (seq - 1) % CYCLE ≡ place)) }
    ensures none { IfNone result ((seq : ℕ) → 0 < seq → id_of track seq ≢ id) }
{
    let first = u64::from(track);
    let id = u64::from(id);
    if id < first || (id - first) % 2 != 0 || 2 * CYCLE <= id - first {
        return None;
    }
    Some((id - first) / 2)
}
