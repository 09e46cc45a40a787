//! Memory is touched before it is needed.

ghost use Rattle.std.specs.Prelude.{◌≡◌, ◌≤◌, vec_len, vec_capacity};

/// Writes to all the room of a list, and leaves the list as it was. What the system takes to give a
/// page is so taken here, and not by the item that is the first to lie in it.
pub(crate) fn touch<T: Drop, F: FnMut() -> T>(items: &mut Vec<T>, room: u32, blank: F)
    requires callable { F.IsAlwaysCallable blank }
    requires room { vec_len items.old ≤ room }
    ensures items { items.new.items ≡ items.old.items }
    ensures len { vec_len items.new ≡ vec_len items.old }
    ensures capacity { vec_capacity items.old ≤ vec_capacity items.new }
{
    let len = items.len();
    let _touched = items.resize_with(room as usize, blank);
    items.truncate(len);
}
