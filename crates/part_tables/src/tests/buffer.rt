use lf_model::bus::Pending;
use store_buffer::Buffer;

/// The store of operation `k`.
fn store(k: u32) -> Pending {
    Pending {
        value: 0x0102_0304,
        addr: 0x4000_0040,
        k,
        step: 9,
        len: 4,
    }
}

/// What came out is the store of operation `k`.
fn is_store(found: Option<Pending>, k: u32) -> bool {
    match found {
        Some(p) => p.k == k && (p.value, p.addr, p.step, p.len) == (0x0102_0304, 0x4000_0040, 9, 4),
        None => false,
    }
}

#[test]
fn first_in_first_out(rt: HostRuntime) {
    let mut buffer = Buffer::new(2);
    assert!(rt; buffer.front().is_none());
    assert!(rt; buffer.pop().is_none());
    assert!(rt; buffer.push(store(0)).is_ok() && buffer.push(store(1)).is_ok());
    assert!(rt; buffer.push(store(2)).is_err());
    assert!(rt; buffer.len() == 2);
    assert!(rt; is_store(buffer.front(), 0));
    assert!(rt; is_store(buffer.pop(), 0));
    assert!(rt; buffer.push(store(3)).is_ok());
    assert!(rt; is_store(buffer.pop(), 1));
    assert!(rt; is_store(buffer.pop(), 3));
    assert!(rt; buffer.len() == 0);
}

#[test]
fn least_and_greatest_depth(rt: HostRuntime) {
    let mut least = Buffer::new(1);
    assert!(rt; least.push(store(0)).is_ok() && least.push(store(1)).is_err());
    let mut greatest = Buffer::new(8);
    for k in 0..8 {
        assert!(rt; greatest.push(store(k)).is_ok());
    }
    assert!(rt; greatest.push(store(8)).is_err());
    assert!(rt; is_store(greatest.front(), 0));
}
