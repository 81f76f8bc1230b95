// The first n of a list, or all of it where there are fewer; and the same of a list that is lent for a result.

pub(crate) fn front<T>(list: &[T], n: usize) -> &[T] {
    &list[..n.min(list.len())]
}

pub(crate) fn front_mut<T>(list: &mut [T], n: usize) -> &mut [T] {
    let end = n.min(list.len());
    &mut list[..end]
}
