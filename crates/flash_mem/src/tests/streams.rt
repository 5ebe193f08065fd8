use crate::{MemSink, MemSource};
use flash_io::{Failed, IntoError, Sink, Source, read_to_limit, write_all};
use std::process::Abort;
use std::test::*;

fn source<R: Abort + AllocGlobal>(rt: &R, bytes: &[u8]) -> MemSource {
    let bytes = Vec::from_slice(rt.alloc(), bytes).expect(rt, "room");
    MemSource::new(rt.alloc(), bytes)
}

#[test]
fn three_bytes_are_read_to_a_limit_of_three_and_not_of_two(rt: HostRuntime) {
    let mut into = Vec::from_slice(rt.alloc(), b"x").expect(&rt, "room");
    let mut three = source(&rt, b"abc");
    assert_eq!(rt;
        read_to_limit(&mut three, 2, &mut into),
        Err(IntoError::TooLong)
    );
    assert_eq!(rt; into.as_slice(), b"x".as_slice());
    let mut three = source(&rt, b"abc");
    assert_eq!(rt; read_to_limit(&mut three, 3, &mut into), Ok(()));
    assert_eq!(rt; into.as_slice(), b"xabc".as_slice());
}

#[test]
fn the_second_read_fails_and_the_third_goes_on(rt: HostRuntime) {
    let mut abc = source(&rt, b"abc");
    let second = Vec::from_slice(rt.alloc(), &[2]).expect(&rt, "room");
    abc.set_failing(second);
    let mut one = [0u8; 1];
    assert_eq!(rt; abc.read(&mut one), Ok(1));
    assert_eq!(rt; abc.read(&mut one), Err(Failed));
    assert_eq!(rt; abc.read(&mut one), Ok(1));
    assert_eq!(rt; one, *b"b");
}

#[test]
fn a_sink_with_room_for_two_takes_two(rt: HostRuntime) {
    let mut sink = MemSink::new(rt.alloc(), 2).expect(&rt, "room");
    assert_eq!(rt; write_all(&mut sink, b"ab"), Ok(()));
    assert_eq!(rt; sink.write(b""), Ok(0));
    assert_eq!(rt; sink.write(b"c"), Err(Failed));
    assert_eq!(rt; sink.as_slice(), b"ab".as_slice());
}

#[test]
fn a_failed_write_leaves_a_front(rt: HostRuntime) {
    let mut sink = MemSink::new(rt.alloc(), 9).expect(&rt, "room");
    let second = Vec::from_slice(rt.alloc(), &[2]).expect(&rt, "room");
    sink.set_failing(second);
    assert_eq!(rt; write_all(&mut sink, b"ab"), Ok(()));
    assert_eq!(rt; write_all(&mut sink, b"cd"), Err(Failed));
    assert_eq!(rt; write_all(&mut sink, b"ef"), Ok(()));
    assert_eq!(rt; sink.as_slice(), b"abef".as_slice());
}
