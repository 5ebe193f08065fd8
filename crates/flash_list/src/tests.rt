use super::*;
use std::test::*;

#[derive(Drop)]
struct Pair {
    key: Bytes,
    value: Bytes,
}

#[test]
fn items_pushed_stand_in_order_and_nest(rt: HostRuntime) {
    let mut list: Items<Pair> = Items::new(rt.alloc());
    assert!(rt; list.is_empty());
    let key = Bytes::from_slice(rt.alloc(), b"ab").expect(&rt, "room");
    let value = Bytes::from_slice(rt.alloc(), b"c").expect(&rt, "room");
    assert!(rt; list.push(Pair { key, value }).is_ok());
    assert_eq!(rt; list.len(), 1);
    if list.len() == 1 {
        let pair = list.at(0);
        assert_eq!(rt; pair.key.as_slice(), b"ab".as_slice());
        assert_eq!(rt; pair.value.as_slice(), b"c".as_slice());
    }
    let mut pairs = list.into_vec();
    assert!(rt; pairs.pop().is_some());
}

#[test]
fn shared_bytes_are_cut_and_shared(rt: HostRuntime) {
    let mut rest = SharedBytes::from_slice(rt.alloc(), b"abcdef").expect(&rt, "room");
    let whole = rest.share().expect(&rt, "room");
    let front = rest.split_to(2).expect(&rt, "room");
    rest.advance(1);
    assert_eq!(rt; front.as_slice(), b"ab".as_slice());
    assert_eq!(rt; rest.as_slice(), b"def".as_slice());
    assert_eq!(rt; whole.as_slice(), b"abcdef".as_slice());
    assert_eq!(rt; rest.len(), 3);
}

#[test]
fn a_list_is_taken_over_and_its_parts_share_it(rt: HostRuntime) {
    let list = Vec::from_slice(rt.alloc(), b"abcdef").expect(&rt, "room");
    let whole = SharedBytes::from_vec(list).expect(&rt, "room");
    if whole.len() == 6 {
        let middle = whole.part(1, 4).expect(&rt, "room");
        drop(whole);
        assert_eq!(rt; middle.as_slice(), b"bcd".as_slice());
    }
}

#[test]
fn fields_are_big_endian(rt: HostRuntime) {
    let bytes = [1u8, 2, 3, 4, 5, 6, 7, 8, 9];
    assert!(rt; matches!(u8_or((), &bytes), Ok((1, _))));
    assert!(rt; matches!(u16_or((), &bytes), Ok((0x0102, _))));
    assert!(rt; matches!(u32_or((), &bytes), Ok((0x0102_0304, _))));
    assert!(rt; matches!(u64_or((), &bytes), Ok((0x0102_0304_0506_0708, [9]))));
    assert!(rt; matches!(u16_or(7u8, &[1]), Err(7)));
}
