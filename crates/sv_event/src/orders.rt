// Whether a list is an order.
ghost use Rattle.std.specs.Prelude.{◌≡◌, ◌<◌, ◌≤◌, ◌+◌, ◌-◌, ◌==◌, ◌&&◌, ℕ, false, IsTrue, IsFalse};
ghost use Rattle.std.specs.Prelude.{nat_lt, if◌then◌else◌, length, replicate, slice_index_or};
ghost use Rattle.std.specs.List.{list_all, range_with_len};
ghost use Rattle.sv_event.specs.Seen.{times_seen, stands_once};

// How many numbers one pass over a list looks for.
const BLOCK: usize = 4096;

/// Whether the list has each number below the count once, and no other number. A call takes no
/// memory, so each pass over the list looks for a block of the numbers.
pub fn is_order(count: usize, order: &[usize]) -> bool
    ensures { result ≡ (list_all (λ k. nat_lt k count) order.now
        && list_all (stands_once order.now) (range_with_len 0 count)) }
{
    are_below(count, order) && has_each_once(count, order)
}

// Whether each number in the list is below the count.
fn are_below(count: usize, order: &[usize]) -> bool
    ensures { result ≡ list_all (λ k. nat_lt k count) order.now }
{
    order.iter().all(|k| *k < count)
}

// Whether the list has each number below the count once.
fn has_each_once(count: usize, order: &[usize]) -> bool
    ensures { result ≡ list_all (stands_once order.now) (range_with_len 0 count) }
{
    let mut first = 0;
    while first < count {
        let size = BLOCK.min(count - first);
        if !has_block_once(order, first, size) {
            return false;
        }
        first += size;
    }
    true
}

// Whether the list has each of so many numbers, from the first on, once.
fn has_block_once(order: &[usize], first: usize, size: usize) -> bool
    requires { size ≤ 4096 }
    ensures { result ≡ list_all (stands_once order.now) (range_with_len first size) }
{
    let mut seen = [false; BLOCK];
    sees_each_once(order, first, &mut seen[..size])
}

// Whether the list has each of the numbers from the first on once, of which none was seen.
fn sees_each_once(order: &[usize], first: usize, seen: &mut [bool]) -> bool
    requires { seen.old ≡ replicate (length seen.old) false }
    ensures { result ≡ list_all (stands_once order.now) (range_with_len first (length seen.old)) }
{
    for k in order {
        if !is_new(*k, first, seen) {
            return false;
        }
    }
    are_all_seen(seen)
}

// Whether each place is marked.
fn are_all_seen(seen: &[bool]) -> bool
    ensures { result ≡ list_all (λ is_seen. is_seen) seen.now }
{
    seen.iter().all(|is_seen| *is_seen)
}

// Marks a number, if it is one of those, and says whether it was not marked before.
fn is_new(number: usize, first: usize, seen: &mut [bool]) -> bool
    ensures size { length seen.new ≡ length seen.old }
    ensures again { IsFalse result → (first ≤ number) × (number - first < length seen.old)
        × IsTrue (slice_index_or seen.old (number - first) false) }
    ensures new { IsTrue result → (j : ℕ) → j < length seen.old →
        times_seen seen.new j ≡ times_seen seen.old j + (if number == first + j then 1 else 0) }
{
    if number < first || number - first >= seen.len() {
        return true;
    }
    let place = number - first;
    let is_new = !seen[place];
    seen[place] = true;
    is_new
}
