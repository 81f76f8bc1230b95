// Lists that a call is given or lent: filled before it, and held to what must stand there after it.
use crate::entry::Entry;
use crate::list::Words;

// The first n of a list, or all of it where there are fewer, each with the value for its place.
pub(crate) fn fill<T: Entry, F: Fn(usize) -> T>(all: &mut [T], n: usize, value: F) -> &mut [T]
    requires { F.IsAlwaysCallable value }
{
    let end = n.min(all.len());
    let front = &mut all[..end];
    for (i, x) in front.iter_mut().enumerate() {
        *x = value(i);
    }
    front
}

// Whether one of the first n, as far as there are any, is not what its place wants.
pub(crate) fn differs<T: Entry, F: Fn(usize) -> T>(all: &[T], n: usize, wanted: F) -> bool
    requires { F.IsAlwaysCallable wanted }
{
    for (i, x) in all[..n.min(all.len())].iter().enumerate() {
        if !x.is_same(wanted(i)) {
            return true;
        }
    }
    false
}

// The list of numbers that stands at a place, read to the front of `all`, as far as there is room.
pub(crate) fn read<'b, T: Entry>(words: Words<'_>, all: &'b mut [T]) -> &'b mut [T] {
    fill(all, words.count(0), |i| words.number(i))
}

// What is lent for the list whose room stands at a place: the front of `all`, or all of it where there is no more, filled with the pattern. The place
// moves on to the next such list.
pub(crate) fn lend<'b, T: Entry>(next: &mut Words<'_>, all: &'b mut [T]) -> &'b mut [T] {
    let room = next.count(0);
    *next = next.skip(1).after::<T>();
    fill(all, room, |i| T::pattern(i))
}
