use super::expect;
use parity_code::{get9, put9};

/// Bytes, their nine bits, and those with a bit flipped.
static BYTES: [(u8, u16, u16); 7] = [
    (0x00, 0x000, 0x001),
    (0x01, 0x101, 0x001),
    (0x03, 0x003, 0x103),
    (0x5a, 0x05a, 0x04a),
    (0x80, 0x180, 0x100),
    (0xfe, 0x1fe, 0x1ff),
    (0xff, 0x0ff, 0x07f),
];

#[test]
fn bytes_and_flipped_bits(rt: HostRuntime) {
    for &(byte, bits, flipped) in &BYTES {
        assert!(rt; bits < 512 && flipped < 512);
        let row = u32::from(byte);
        expect(&rt, row, put9(byte) == bits);
        expect(&rt, row, get9(bits) == Some(byte));
        expect(&rt, row, get9(flipped).is_none());
    }
}
