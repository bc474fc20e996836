//! A list of bytes, and one of lists.
use super::common::{assert_bytes, assert_same, bytes_of};
use lists::Items;

#[test]
fn lists_keep_what_they_are_given(rt: HostRuntime) {
    let alloc = rt.alloc();
    let mut bytes = Items::<u8>::copy_of(alloc, &[3, 1]).expect(&rt, "memory");
    bytes.push(2).expect(&rt, "memory");
    assert_bytes(&rt, bytes.as_slice(), &[3, 1, 2], "bytes");
    assert_same(&rt, &(bytes.len(), bytes.is_empty()), &(3, false), "bytes");
    let mut lists = Items::<Items<u8>>::new(alloc);
    assert_same(&rt, &(lists.len(), lists.is_empty()), &(0, true), "no list");
    lists
        .push(Items::of(bytes.into_vec()))
        .expect(&rt, "memory");
    lists
        .push(Items::of(bytes_of(&rt, alloc, &[7])))
        .expect(&rt, "memory");
    assert!(rt; lists.len() == 2);
    assert_bytes(&rt, lists.as_slice()[0].as_slice(), &[3, 1, 2], "the first");
    assert_bytes(&rt, lists.as_slice()[1].as_slice(), &[7], "the second");
}
