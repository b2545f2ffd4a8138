//! Room that is taken before anything changes, so that want of memory leaves all as it was.

ghost use Rattle.std.specs.Prelude.{◌≡◌, ◌+◌, ◌-◌, ◌≤◌, ◌<◌, [], ◌∷◌, ◌++◌, min, OnOk, OnErr, vec_len, vec_capacity};
ghost use Rattle.std.specs.VecDeque.{deque_len, deque_capacity};

use crate::versions::Versions;
use kb_machine::{Event, Line, Origin};
use kb_word::Memory;
use std::collections::VecDeque;

/// Makes room for n more items. A list that is full grows by a sixteenth of its length, so that little of its memory
/// is never used.
pub(crate) fn grow<T: Drop>(list: &mut Vec<T>, n: usize) -> Result<(), Memory>
    ensures items { list.new.items ≡ list.old.items }
    ensures len { vec_len list.new ≡ vec_len list.old }
    ensures room { OnOk result (vec_len list.new + n ≤ vec_capacity list.new) }
    ensures full { OnErr result (vec_capacity list.old - vec_len list.old < n) }
    ensures kept { vec_capacity list.old ≤ vec_capacity list.new }
{
    if list.capacity() - list.len() < n {
        list.reserve_exact(n.max(list.len() / 16 + 4))?;
    }
    Ok(())
}

/// Makes room for n more events and as many more pending pairs.
pub(crate) fn make_room(
    journal: &mut Vec<Event>,
    pending: &mut VecDeque<Origin>,
    n: usize,
) -> Result<(), Memory>
    ensures events { journal.new.items ≡ journal.old.items }
    ensures origins { pending.new.items ≡ pending.old.items }
    ensures room { OnOk result (vec_len journal.new + n ≤ vec_capacity journal.new) }
    ensures room_of_pending { OnOk result (deque_len pending.new + n ≤ deque_capacity pending.new) }
    ensures full { OnErr result (min (vec_capacity journal.old - vec_len journal.old)
        (deque_capacity pending.old - deque_len pending.old) < n) }
    ensures kept { min (vec_capacity journal.old - vec_len journal.old)
        (deque_capacity pending.old - deque_len pending.old) ≤
        min (vec_capacity journal.new - vec_len journal.new)
        (deque_capacity pending.new - deque_len pending.new) }
{
    grow(journal, n)?;
    pending.reserve(n)?;
    Ok(())
}

/// Makes room for a publication. More versions than a u32 can number take more memory than there is.
pub(crate) fn make_publish_room(journal: &mut Vec<Event>, versions: &Versions) -> Result<(), Memory>
    ensures events { journal.new.items ≡ journal.old.items }
    ensures len { vec_len journal.new ≡ vec_len journal.old }
    ensures room { OnOk result (vec_len journal.new < vec_capacity journal.new) }
    ensures more { OnOk result (0 < versions.now.more) }
    ensures full { OnErr result
        (min (vec_capacity journal.old - vec_len journal.old) versions.now.more ≡ 0) }
    ensures kept { vec_capacity journal.old ≤ vec_capacity journal.new }
{
    if !versions.have_room() {
        return Err(Memory);
    }
    grow(journal, 1)
}

/// Makes room for one more line.
pub(crate) fn make_line_room(
    journal: &mut Vec<Event>,
    lines: &mut Vec<Line>,
    live: &mut Vec<u32>,
    versions: &mut Versions,
) -> Result<(), Memory>
    ensures events { journal.new.items ≡ journal.old.items }
    ensures lines { lines.new.items ≡ lines.old.items }
    ensures live { live.new.items ≡ live.old.items }
    ensures live_len { vec_len live.new ≡ vec_len live.old }
    ensures published { versions.new.published ≡ versions.old.published }
    ensures versions_live { versions.new.live ≡ versions.old.live }
    ensures versions_lines { versions.new.lines ≡ versions.old.lines }
    ensures room_of_events { OnOk result (vec_len journal.new < vec_capacity journal.new) }
    ensures room_of_lines { OnOk result (vec_len lines.new < vec_capacity lines.new) }
    ensures room_of_live { OnOk result (vec_len live.new < vec_capacity live.new) }
    ensures room_of_versions { OnOk result (0 < versions.new.room) }
{
    grow(journal, 1)?;
    grow(lines, 1)?;
    grow(live, 1)?;
    versions.reserve()
}

/// Adds an item at the end of a list that has room for it.
pub(crate) fn add<T: Drop>(list: &mut Vec<T>, item: T)
    requires { vec_len list.old < vec_capacity list.old }
    ensures items { list.new.items ≡ list.old.items ++ item ∷ [] }
    ensures len { vec_len list.new ≡ vec_len list.old + 1 }
    ensures capacity { vec_capacity list.old ≤ vec_capacity list.new }
{
    let _ = list.push(item);
}

/// Adds an origin at the end of a queue that has room for it.
pub(crate) fn append(pending: &mut VecDeque<Origin>, origin: Origin)
    requires { deque_len pending.old < deque_capacity pending.old }
    ensures items { pending.new.items ≡ pending.old.items ++ origin ∷ [] }
    ensures len { deque_len pending.new ≡ deque_len pending.old + 1 }
    ensures capacity { deque_capacity pending.new ≡ deque_capacity pending.old }
{
    let _ = pending.push_back(origin);
}

/// Adds an origin in front of a queue that has room for it.
pub(crate) fn prepend(pending: &mut VecDeque<Origin>, origin: Origin)
    requires { deque_len pending.old < deque_capacity pending.old }
    ensures items { pending.new.items ≡ origin ∷ pending.old.items }
    ensures len { deque_len pending.new ≡ deque_len pending.old + 1 }
    ensures capacity { deque_capacity pending.new ≡ deque_capacity pending.old }
{
    let _ = pending.push_front(origin);
}
