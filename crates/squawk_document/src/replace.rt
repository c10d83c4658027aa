//! Replacing a range of a vector in place.
ghost use Rattle.std.specs.Prelude.{◌≡◌, ◌+◌, ◌-◌, ◌≤◌, ◌++◌, List, length, take, drop, vec_capacity};

// Exchanges the two parts of the elements from `at` on: those up to `at + mid`, and the others.
// Each step below is a function of its own, over a slice or a vector, which keeps proofs short.
fn rotate_tail<T>(items: &mut [T], at: usize, mid: usize)
    requires { at + mid ≤ length items.old }
    ensures parts { (front left right : List T) → items.old ≡ front ++ (left ++ right)
        → length front ≡ at → length left ≡ mid → items.new ≡ front ++ (right ++ left) }
    ensures len { length items.new ≡ length items.old }
{
    items[at..].rotate_left(mid);
}

// The same for a vector.
fn rotate_from<T>(items: &mut Vec<T>, at: usize, mid: usize)
    requires { at + mid ≤ length items.old.items }
    ensures parts { (front left right : List T) → items.old.items ≡ front ++ (left ++ right)
        → length front ≡ at → length left ≡ mid → items.new.items ≡ front ++ (right ++ left) }
    ensures len { length items.new.items ≡ length items.old.items }
    ensures capacity { vec_capacity items.new ≡ vec_capacity items.old }
{
    rotate_tail(items.as_mut_slice(), at, mid);
}

// Replaces the elements from `start` up to `end` by moving the elements after them twice. Takes no
// memory: the vector has room for the old and the new elements.
fn replace_by_rotation<T: Drop>(items: &mut Vec<T>, start: usize, end: usize, with: Vec<T>)
    requires low { start ≤ end }
    requires within { end ≤ length items.old.items }
    requires room { length items.old.items + length with.items ≤ vec_capacity items.old }
    ensures items { items.new.items
        ≡ take start items.old.items ++ (with.items ++ drop end items.old.items) }
    ensures capacity { vec_capacity items.old ≤ vec_capacity items.new }
{
    let mut with = with;
    let count = end - start;
    let added = with.len();
    let len = items.len() - count + added;
    match items.append(&mut with) {
        Ok(()) => {}
        // `append` fails only if it must take memory, and by `room` it need not.
        Err(_) => unreachable!(),
    }
    rotate_from(items, start, count);
    items.truncate(len);
    rotate_from(items, start, len - start - added);
}

// Exchanges n elements: those of `items` from `at` on, and the first ones of `others`.
fn swap_parts<T>(items: &mut [T], at: usize, others: &mut [T], n: usize)
    requires within { at + n ≤ length items.old }
    requires others_within { n ≤ length others.old }
    ensures items { items.new
        ≡ take at items.old ++ (take n others.old ++ drop (at + n) items.old) }
    ensures others { others.new ≡ take n (drop at items.old) ++ drop n others.old }
{
    items[at..at + n].swap_with_slice(&mut others[..n]);
}

// The same for vectors.
fn swap_ranges<T>(items: &mut Vec<T>, at: usize, others: &mut Vec<T>, n: usize)
    requires within { at + n ≤ length items.old.items }
    requires others_within { n ≤ length others.old.items }
    ensures items { items.new.items
        ≡ take at items.old.items ++ (take n others.old.items ++ drop (at + n) items.old.items) }
    ensures others { others.new.items
        ≡ take n (drop at items.old.items) ++ drop n others.old.items }
    ensures capacity { vec_capacity items.new ≡ vec_capacity items.old }
{
    swap_parts(items.as_mut_slice(), at, others.as_mut_slice(), n);
}

// Removes the first n elements.
fn remove_front<T: Drop>(items: &mut Vec<T>, n: usize)
    requires { n ≤ length items.old.items }
    ensures { items.new.items ≡ drop n items.old.items }
{
    items.drain(..n);
}

// Replaces the elements from `start` up to `end`. Takes no memory: the vector has room for the old
// and the new elements.
//
// As many elements as both have change places, so that the elements after them move only if there
// are more or fewer than before, and then once.
pub(crate) fn replace_range<T: Drop>(items: &mut Vec<T>, start: usize, end: usize, with: Vec<T>)
    requires low { start ≤ end }
    requires within { end ≤ length items.old.items }
    requires room { length items.old.items + length with.items ≤ vec_capacity items.old }
    ensures items { items.new.items
        ≡ take start items.old.items ++ (with.items ++ drop end items.old.items) }
    ensures capacity { vec_capacity items.old ≤ vec_capacity items.new }
{
    let mut with = with;
    let common = (end - start).min(with.len());
    swap_ranges(items, start, &mut with, common);
    remove_front(&mut with, common);
    replace_by_rotation(items, start + common, end, with);
}
