//! Lists that are filled up with blank items: what was never written takes no memory but its room.
ghost use Rattle.std.specs.Prelude.{◌≡◌, ℕ, ◌-◌, ◌++◌, ◌<◌, ◌≤◌, length, replicate, slice_index_or, slice_set, vec_capacity};
ghost use Rattle.lists.specs.Padded.{padded};

/// The item at a place, which is blank where none was written.
#[inline(always)]
pub fn item_or<T: Copy>(items: &[T], i: usize, blank: T) -> T
    ensures value { result ≡ slice_index_or items.now i blank }
    ensures padded { (n : ℕ) → i < n → result ≡ slice_index_or (padded blank n items.now) i blank }
{
    if i < items.len() { items[i] } else { blank }
}

/// Writes blank items behind, up to so many.
#[inline(never)]
fn extend<T: Copy>(items: &mut Vec<T>, len: usize, blank: T)
    requires short { length items.old.items ≤ len }
    requires room { len ≤ vec_capacity items.old }
    ensures items { items.new.items ≡ items.old.items ++ replicate (len - length items.old.items) blank }
    ensures room { vec_capacity items.old ≤ vec_capacity items.new }
{
    match items.resize(len, blank) {
        Ok(()) => {}
        Err(_) => unreachable!(),
    }
}

/// Writes blank items up to so many.
#[inline(always)]
fn lay<T: Copy>(items: &mut Vec<T>, len: usize, blank: T)
    requires { len ≤ vec_capacity items.old }
    ensures items { items.new.items ≡ items.old.items ++ replicate (len - length items.old.items) blank }
    ensures long { len ≤ length items.new.items }
    ensures room { vec_capacity items.old ≤ vec_capacity items.new }
{
    if len > items.len() {
        extend(items, len, blank);
    }
}

/// Writes the item at a place, within the room that is there.
#[inline(always)]
pub fn put_item<T: Copy>(items: &mut Vec<T>, i: usize, item: T, blank: T)
    requires { i < vec_capacity items.old }
    ensures items { (n : ℕ) → padded blank n items.new.items ≡ slice_set (padded blank n items.old.items) i item }
    ensures len { (n : ℕ) → i < n → length items.old.items ≤ n → length items.new.items ≤ n }
    ensures room { vec_capacity items.old ≤ vec_capacity items.new }
{
    lay(items, i + 1, blank);
    items[i] = item;
}
