ghost use Rattle.std.specs.Prelude.{◌<◌, ◌≤◌, length, IfOk};

use log_codec::{
    Body, ColumnSpec, Family, FrameError, read_frame, read_header, write_frame, write_header,
};
use std::alloc::Global;
use std::test::*;

const LOG: [u8; 155] = [
    0x46, 0x4C, 0x41, 0x53, 0x48, 0x4C, 0x4F, 0x47, 0x00, 0x01, 0x00, 0x00, 0x00, 0x00, 0x00, 0x00,
    0x00, 0x01, 0x00, 0x02, 0x00, 0x00, 0x00, 0x01, 0x01, 0x00, 0x00, 0x00, 0x02, 0x03, 0x00, 0x00,
    0x00, 0x26, 0x00, 0x00, 0x00, 0x01, 0x00, 0x00, 0x00, 0x00, 0x00, 0x00, 0x00, 0x05, 0x01, 0x00,
    0x00, 0x00, 0x00, 0x00, 0x00, 0x00, 0x01, 0x00, 0x00, 0x00, 0x00, 0x00, 0x00, 0x00, 0x01, 0x80,
    0x00, 0x00, 0x00, 0x00, 0x00, 0x00, 0x00, 0x00, 0x00, 0x00, 0x00, 0x4F, 0x00, 0x00, 0x00, 0x01,
    0x00, 0x00, 0x00, 0x00, 0x00, 0x00, 0x00, 0x06, 0x02, 0x00, 0x00, 0x00, 0x01, 0x01, 0x03, 0x00,
    0x23, 0x74, 0x80, 0x00, 0x00, 0x00, 0x00, 0x00, 0x00, 0xFF, 0x01, 0x5F, 0x72, 0x80, 0x00, 0x00,
    0x00, 0x00, 0xFF, 0x00, 0x00, 0x05, 0x00, 0x00, 0x00, 0x00, 0x00, 0xFA, 0xFF, 0xFF, 0xFF, 0xFF,
    0xFF, 0xFF, 0xFF, 0xF5, 0x00, 0x00, 0x00, 0x13, 0x50, 0x07, 0x76, 0x0F, 0x80, 0x00, 0x02, 0x00,
    0x00, 0x00, 0x01, 0x02, 0x01, 0x00, 0x03, 0x00, 0x05, 0x61, 0x62,
];

// Frames of the kinds that the log above lacks, one behind the other.
const OTHERS: [u8; 169] = [
    0, 0, 0, 0x19, 0, 0, 0, 1, 0, 0, 0, 0, 0, 0, 0, 7, 3, 0, 0, 0, 0, 0, 0, 0, 100, 0, 0, 0, 2, 0,
    0, 0, 0x11, 0, 0, 0, 1, 0, 0, 0, 0, 0, 0, 0, 8, 4, 0, 0, 0, 2, 0, 0, 0, 0x11, 0, 0, 0, 2, 0, 0,
    0, 0, 0, 0, 0, 6, 5, 0, 0, 0, 1, 0, 0, 0, 0x0D, 0, 0, 0, 2, 0, 0, 0, 0, 0, 0, 0, 7, 6, 0, 0, 0,
    0x3C, 0, 0, 0, 9, 0, 0, 0, 0, 0, 0, 0, 20, 7, 0, 0, 0, 0, 0, 0, 0, 3, 0, 0, 0, 0, 0, 0, 0, 4,
    0x80, 0, 0, 0, 0, 0, 0, 0, 1, 0, 0, 0, 0, 0, 0, 0, 100, 0, 0, 0, 1, 1, 2, 0, 1, 0x6B, 0, 0, 0,
    1, 0x76, 0, 0, 0, 0x0D, 0, 0, 0, 9, 0, 0, 0, 0, 0, 0, 0, 21, 8,
];

// Where the header and at most two frames end.
fn end_of(alloc: Global, log: &[u8]) -> Result<usize, FrameError> {
    let (_, end) = read_header(alloc, log)?;
    if end >= log.len() {
        return Ok(end);
    }
    let frame = read_frame(alloc, log, end)?;
    if frame.end >= log.len() {
        return Ok(frame.end);
    }
    let frame = read_frame(alloc, log, frame.end)?;
    Ok(frame.end)
}

// The frame at this place, written again behind the bytes, and its end.
fn copy_frame(alloc: Global, log: &[u8], at: usize, into: &mut Vec<u8>) -> Result<usize, FrameError>
    requires { at < length log.now }
    ensures { IfOk result (λ end. (at < end) × (end ≤ length log.now)) }
{
    let frame = read_frame(alloc, log, at)?;
    write_frame(&frame.entry, into)?;
    Ok(frame.end)
}

fn copy_header(alloc: Global, log: &[u8], into: &mut Vec<u8>) -> Result<usize, FrameError> {
    let (header, end) = read_header(alloc, log)?;
    write_header(&header, into)?;
    Ok(end)
}

#[test]
fn the_one_row_log_is_read(rt: HostRuntime) -> Result<(), Fail> {
    let alloc = rt.alloc();
    let (header, end) = read_header(alloc, &LOG).ok().ok_or("a header")?;
    assert_eq!(rt; header.table, 1);
    assert_eq!(rt;
        header.columns.as_slice(),
        [ColumnSpec { id: 1, kind: 1 }, ColumnSpec { id: 2, kind: 3 }].as_slice()
    );
    assert_eq!(rt; end, 30);
    let frame = read_frame(alloc, &LOG, 30).ok().ok_or("a frame")?;
    assert_eq!(rt;
        (frame.entry.region, frame.entry.index, frame.end),
        (1, 5, 72)
    );
    assert!(rt;
        matches!(
            frame.entry.body,
            Body::Open {
                conf_ver: 1,
                version: 1,
                low: i64::MIN,
                high: None
            }
        )
    );
    let frame = read_frame(alloc, &LOG, 72).ok().ok_or("a frame")?;
    assert_eq!(rt;
        (frame.entry.region, frame.entry.index, frame.end),
        (1, 6, 155)
    );
    let Body::Write { ops } = frame.entry.body else {
        return Err("a Write".into());
    };
    assert_eq!(rt; ops.len(), 1);
    if ops.len() == 1 {
        let op = ops.at(0);
        assert_eq!(rt; (op.put, op.family), (true, Family::Write));
        assert_eq!(rt; op.key.as_slice(), &LOG[97..132]);
        assert_eq!(rt; op.value.as_slice(), &LOG[136..155]);
    }
    Ok(())
}

#[test]
fn every_prefix_is_short_but_at_the_borders(rt: HostRuntime) {
    for len in 0..155usize {
        let found = end_of(rt.alloc(), &LOG[..len]);
        if len == 30 || len == 72 {
            assert_eq!(rt; found, Ok(len));
        } else {
            assert_eq!(rt; found, Err(FrameError::Short { at: len as u64 }));
        }
    }
}

#[test]
fn one_changed_byte_is_found_at_its_field(rt: HostRuntime) {
    let changes: [(usize, u8, FrameError); 7] = [
        (29, 0x04, FrameError::Bad { at: 29 }),
        (46, 0x09, FrameError::Bad { at: 46 }),
        (71, 0x02, FrameError::Bad { at: 71 }),
        (45, 0x00, FrameError::Bad { at: 38 }),
        (33, 0x25, FrameError::Bad { at: 71 }),
        (33, 0x27, FrameError::Long { at: 72 }),
        (72, 0xFF, FrameError::Bad { at: 72 }),
    ];
    for (at, byte, wanted) in changes {
        let mut log = LOG;
        if at < 155 {
            log[at] = byte;
        }
        assert_eq!(rt; end_of(rt.alloc(), &log), Err(wanted));
    }
}

#[test]
fn the_one_row_log_is_written_again(rt: HostRuntime) -> Result<(), Fail> {
    let alloc = rt.alloc();
    let mut copy = Vec::new(alloc);
    assert_eq!(rt; copy_header(alloc, &LOG, &mut copy), Ok(30));
    assert_eq!(rt; copy_frame(alloc, &LOG, 30, &mut copy), Ok(72));
    assert_eq!(rt; copy_frame(alloc, &LOG, 72, &mut copy), Ok(155));
    assert_eq!(rt; copy.as_slice(), LOG.as_slice());
    Ok(())
}

#[test]
fn the_other_kinds_are_written_again(rt: HostRuntime) -> Result<(), Fail> {
    let alloc = rt.alloc();
    let mut copy = Vec::new(alloc);
    for at in [0usize, 29, 50, 71, 88, 152] {
        if at < 169 {
            assert!(rt; copy_frame(alloc, &OTHERS, at, &mut copy).is_ok());
        }
    }
    assert_eq!(rt; copy.as_slice(), OTHERS.as_slice());
    let frame = read_frame(alloc, &OTHERS, 0).ok().ok_or("a Split")?;
    assert!(rt; matches!(frame.entry.body, Body::Split { at: 100, child: 2 }));
    let frame = read_frame(alloc, &OTHERS, 88).ok().ok_or("an Install")?;
    assert!(rt;
        matches!(
            frame.entry.body,
            Body::Install {
                conf_ver: 3,
                version: 4,
                low: i64::MIN,
                high: Some(100),
                ..
            }
        )
    );
    let mut with_delete = OTHERS;
    with_delete[142] = 2;
    assert_eq!(rt;
        read_frame(alloc, &with_delete, 88).err(),
        Some(FrameError::Bad { at: 142 })
    );
    Ok(())
}
