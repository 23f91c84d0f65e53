// The check of a string of bytes, CRC-16/ARC, half a byte at a time. Serves the wider function over it.
#![tactic(auto)]

ghost use Rattle.std.specs.Prelude.{◌≡◌};
ghost use Rattle.crc.specs.Check.{shifts, check};

// Entry n is what four shifts make of n.
const HALF_BYTES: [u16; 16] = [
    0x0000, 0xCC01, 0xD801, 0x1400, 0xF001, 0x3C00, 0x2800, 0xE401, 0xA001, 0x6C00, 0x7800, 0xB401,
    0x5000, 0x9C01, 0x8801, 0x4400,
];

// Four shifts at once.
pub fn half_byte(r: u64) -> u64
    ensures { result ≡ shifts 4 r }
{
    let low = (r % 16) as usize;
    r / 16 ^ u64::from(HALF_BYTES[low])
}

// The check of the bytes.
pub fn crc(bytes: &[u8]) -> u16
    ensures { result ≡ check bytes.now }
{
    let mut r: u64 = 0;
    for &b in bytes {
        r = half_byte(half_byte(r ^ u64::from(b)));
    }
    r as u16
}
