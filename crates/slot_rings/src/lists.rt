// Lists that end where nothing was written yet.
ghost use Rattle.std.specs.Prelude.{◌≡◌, ℕ, ◌+◌, ◌<◌, ◌≤◌, ◌^◌, get_or, length, vec_len, vec_capacity, if◌then◌else◌};
ghost use Rattle.unit_model.specs.Claims.{is_from};

/// Fills a list up with blanks to a length for which it has room.
pub(crate) fn reach<T: Copy + Drop>(list: &mut Vec<T>, len: usize, blank: T)
    requires { len ≤ vec_capacity list.old }
    ensures same { (k : ℕ) → get_or list.new.items k blank ≡ get_or list.old.items k blank }
    ensures kept { (k : ℕ) (other : T) → k < vec_len list.old → get_or list.new.items k other ≡ get_or list.old.items k other }
    ensures filled { (k : ℕ) (other : T) → vec_len list.old ≤ k → k < len → get_or list.new.items k other ≡ blank }
    ensures len { len ≤ vec_len list.new }
    ensures exact { vec_len list.old ≤ len → vec_len list.new ≡ len }
    ensures stays { len ≤ vec_len list.old → vec_len list.new ≡ vec_len list.old }
    ensures capacity { vec_capacity list.old ≤ vec_capacity list.new }
{
    if list.len() < len {
        let filled = list.resize(len, blank).is_ok();
        prove!(filled);
    }
}

/// Makes the items from one number on the same, so many of them as there are.
fn set_items<T: Copy + Drop>(items: &mut [T], from: usize, count: usize, item: T)
    requires { from + count < 2 ^ 32 }
    ensures each { (k : ℕ) (other : T) → k < length items.old → get_or items.new k other ≡ (if is_from from count k then item else get_or items.old k other) }
    ensures len { length items.new ≡ length items.old }
{
    for k in from..(from + count).min(items.len()) {
        items[k] = item;
    }
}

/// The same of a list.
pub(crate) fn overwrite<T: Copy + Drop>(list: &mut Vec<T>, from: usize, count: usize, item: T)
    requires { from + count < 2 ^ 32 }
    ensures each { (k : ℕ) (other : T) → k < vec_len list.old → get_or list.new.items k other ≡ (if is_from from count k then item else get_or list.old.items k other) }
    ensures len { vec_len list.new ≡ vec_len list.old }
    ensures capacity { vec_capacity list.old ≤ vec_capacity list.new }
{
    set_items(list.as_mut_slice(), from, count, item);
}

/// Makes so many items of a list from one number on the same, whether it has them or not.
pub(crate) fn put_all<T: Copy + Drop>(
    list: &mut Vec<T>,
    from: usize,
    count: usize,
    blank: T,
    item: T,
)
    requires room { from + count ≤ vec_capacity list.old }
    requires small { from + count < 2 ^ 32 }
    ensures each { (k : ℕ) → get_or list.new.items k blank ≡ (if is_from from count k then item else get_or list.old.items k blank) }
    ensures capacity { vec_capacity list.old ≤ vec_capacity list.new }
{
    reach(list, from, blank);
    overwrite(list, from, count, item);
    reach(list, from + count, item);
}

/// What a list has from one number on.
pub(crate) fn items_from<T>(list: &[T], from: usize) -> &[T]
    ensures { (k : ℕ) (blank : T) → get_or result.now k blank ≡ get_or list.now (from + k) blank }
{
    &list[from.min(list.len())..]
}
