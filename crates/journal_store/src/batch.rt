// A batch as bytes.
ghost use Rattle.std.specs.Prelude.{◌≡◌, ◌≤◌, ◌+◌, ◌*◌, ◌++◌, [], ◌∷◌, length, take, drop, vec_capacity};
ghost use Rattle.std.specs.VecDeque.{deque_capacity};
ghost use Rattle.journal_store.specs.Gates.{behind};
ghost use Rattle.records.specs.Entries.{entry_bytes};

use request_text::Entry;
use std::collections::VecDeque;

/// The most entries of one batch.
pub const BATCH: usize = 64;

// The bytes of one entry, and those of the largest batch with its gate and the next one.
const ENTRY: usize = 256;

pub const ROOM: usize = 3 + ENTRY * BATCH;

/// Fills the room with a closed gate, the batch of so many of the first pending entries, and the next gate, closed as well.
pub fn fill(room: &mut Vec<u8>, pending: &VecDeque<Entry>, count: usize)
    requires room { ROOM ≤ vec_capacity room.old }
    requires most { count ≤ BATCH }
    requires within { count ≤ length pending.now.items }
    ensures bytes { room.new.items ≡ 0 ∷ behind (take count pending.now.items) }
    ensures len { length room.new.items ≡ 3 + 256 * count }
    ensures capacity { vec_capacity room.old ≤ vec_capacity room.new }
{
    room.clear();
    put(room, &[0, count as u8]);
    'entries: for i in 0..count {
        put_entry(room, &pending[i]);
    }
    put(room, &[0]);
}

// Appends an entry for which there is room.
fn put_entry(room: &mut Vec<u8>, entry: &Entry)
    requires { length room.old.items + 256 ≤ vec_capacity room.old }
    ensures items { room.new.items ≡ room.old.items ++ entry_bytes entry.now }
    ensures len { length room.new.items ≡ length room.old.items + 256 }
    ensures capacity { vec_capacity room.old ≤ vec_capacity room.new }
{
    let mut bytes = [0; ENTRY];
    records::write(entry, &mut bytes);
    put(room, &bytes);
}

// Appends bytes for which there is room.
fn put(room: &mut Vec<u8>, bytes: &[u8])
    requires { length room.old.items + length bytes.now ≤ vec_capacity room.old }
    ensures items { room.new.items ≡ room.old.items ++ bytes.now }
    ensures len { length room.new.items ≡ length room.old.items + length bytes.now }
    ensures capacity { vec_capacity room.old ≤ vec_capacity room.new }
{
    let _ = room.extend_from_slice(bytes);
}

/// Takes so many of the first entries away.
pub fn drop_front(pending: &mut VecDeque<Entry>, count: usize)
    requires { count ≤ length pending.old.items }
    ensures items { pending.new.items ≡ drop count pending.old.items }
    ensures capacity { deque_capacity pending.new ≡ deque_capacity pending.old }
{
    'entries: for _ in 0..count {
        let _ = pending.pop_front();
    }
}
