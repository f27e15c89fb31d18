ghost use Rattle.std.specs.Prelude.{◌≡◌, ◌≤◌, ◌<◌, ◌+◌, ◌⊎◌, T, true, length, vec_len, vec_capacity, slice_get, position, nat_le, if◌then◌else◌};
ghost use Rattle.std.specs.Ordering.{nat_cmp};
ghost use Rattle.std.specs.FinMap as map;
ghost use Rattle.std.specs.FinMap.Entries.{put};
ghost use Rattle.mj_lease.specs.Entries.{due_entries, entry_is, has_entry, place_in, without_entry};

/// Sets the deadline of this connection where the numbers rise.
pub fn put_entry(entries: &mut Vec<(u64, u64)>, conn: u64, deadline: u64)
    requires sorted { T (map.is_sorted nat_cmp entries.old.items) }
    requires room { (has_entry conn entries.old.items ≡ true) ⊎ (vec_len entries.old < vec_capacity entries.old) }
    ensures items { entries.new.items ≡ put nat_cmp conn deadline entries.old.items }
    ensures len { vec_len entries.new ≡ vec_len entries.old + (if has_entry conn entries.old.items then 0 else 1) }
    ensures capacity { vec_capacity entries.old ≤ vec_capacity entries.new }
{
    let at = place_of(entries, conn);
    if is_at(entries, at, conn) {
        entries[at] = (conn, deadline);
    } else {
        entries.insert(at, (conn, deadline)).unwrap();
    }
}

/// The first place whose number isn't below this one, or the length.
fn place_of(entries: &[(u64, u64)], conn: u64) -> usize
    ensures place { result ≡ place_in conn entries.now }
    ensures within { result ≤ length entries.now }
{
    first_not_below(entries, conn).unwrap_or(entries.len())
}

fn first_not_below(entries: &[(u64, u64)], conn: u64) -> Option<usize>
    ensures { result ≡ position (λ e. nat_le conn e.0) entries.now }
{
    entries.iter().position(|e| conn <= e.0)
}

/// Whether the entry of this connection stands here.
fn is_at(entries: &[(u64, u64)], at: usize, conn: u64) -> bool
    ensures { result ≡ entry_is conn (slice_get entries.now at) }
{
    match entries.get(at) {
        Some(entry) => entry.0 == conn,
        None => false,
    }
}

/// Takes out the entry of this connection.
pub fn take_entry(entries: &mut Vec<(u64, u64)>, conn: u64)
    ensures items { entries.new.items ≡ without_entry conn entries.old.items }
    ensures len { vec_len entries.new + (if has_entry conn entries.old.items then 1 else 0) ≤ vec_len entries.old }
    ensures capacity { vec_capacity entries.new ≡ vec_capacity entries.old }
{
    entries.retain(|e| e.0 != conn);
}

/// The number of connections that are due.
pub fn count_due(entries: &[(u64, u64)], now: u64) -> usize
    ensures { result ≡ length (due_entries now entries.now) }
{
    entries.iter().filter(|e| e.1 <= now).count()
}
