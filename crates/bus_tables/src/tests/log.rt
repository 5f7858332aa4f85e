use super::expect;
use lf_model::bus::{Entry, OpKind};
use order_log::Log;
use std::mem::size_of;
use std::test::Fail;

/// The double word 0123456789abcdef.
const DOUBLE: Entry = Entry {
    got: 0,
    put: 0x0123_4567_89ab_cdef,
    core: 0,
    k: 3,
    addr: 0x4000_0008,
    kind: OpKind::Store,
    len: 8,
};

/// A half of its high word.
const HALF: Entry = Entry {
    got: 0,
    put: 0xbeef,
    core: 1,
    k: 0,
    addr: 0x4000_000a,
    kind: OpKind::Store,
    len: 2,
};

/// A SWAP of its low word.
const SWAP: Entry = Entry {
    got: 0x89ab_cdef,
    put: 0x11,
    core: 2,
    k: 7,
    addr: 0x4000_000c,
    kind: OpKind::Atomic,
    len: 4,
};

/// Its last byte.
const BYTE: Entry = Entry {
    got: 0,
    put: 0xff,
    core: 1,
    k: 1,
    addr: 0x4000_000f,
    kind: OpKind::Store,
    len: 1,
};

/// Addresses, and the byte at each after none, one, two, three and four of these entries.
const BYTES: [(u32, [Option<u8>; 5]); 7] = [
    (0x4000_0007, [None; 5]),
    (
        0x4000_0008,
        [None, Some(0x01), Some(0x01), Some(0x01), Some(0x01)],
    ),
    (
        0x4000_000a,
        [None, Some(0x45), Some(0xbe), Some(0xbe), Some(0xbe)],
    ),
    (
        0x4000_000b,
        [None, Some(0x67), Some(0xef), Some(0xef), Some(0xef)],
    ),
    (
        0x4000_000c,
        [None, Some(0x89), Some(0x89), Some(0x00), Some(0x00)],
    ),
    (
        0x4000_000f,
        [None, Some(0xef), Some(0xef), Some(0x11), Some(0xff)],
    ),
    (0x4000_0010, [None; 5]),
];

#[test]
fn bytes_after_entries(rt: HostRuntime) -> Result<(), Fail> {
    let mut log = Log::new(rt.alloc(), 4)?;
    log.push(DOUBLE);
    log.push(HALF);
    log.push(SWAP);
    log.push(BYTE);
    for (addr, bytes) in BYTES {
        for i in 0..5 {
            expect(&rt, addr, log.byte_after(i, addr) == bytes[i as usize]);
        }
    }
    Ok(())
}

#[test]
fn entries_as_they_came(rt: HostRuntime) -> Result<(), Fail> {
    let mut log = Log::new(rt.alloc(), 2)?;
    assert!(rt; log.len() == 0);
    log.push(SWAP);
    log.push(HALF);
    assert!(rt; log.len() == 2);
    let e = log.at(0);
    assert!(rt; (e.got, e.put, e.core, e.k) == (0x89ab_cdef, 0x11, 2, 7));
    assert!(rt; (e.addr, e.kind, e.len) == (0x4000_000c, OpKind::Atomic, 4));
    assert!(rt; (log.at(1).core, log.at(1).k) == (1, 0));
    Ok(())
}

#[test]
fn entries_are_small(rt: HostRuntime) {
    assert!(rt; size_of::<Entry>() <= 32);
}
