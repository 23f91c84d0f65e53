// The check of a string of bytes, six bytes at a time in a register of 64 bits. Serves the files.
#![tactic(auto)]

ghost use Rattle.std.specs.Prelude.{◌≡◌, ◌<◌};
ghost use Rattle.std.specs.List.{concat};
ghost use Rattle.crc.specs.Check.{shifts, fed, digits, bits_of, check};
ghost use Rattle.crc_wide.specs.Wide.{taken_six, taken_byte, sixteen_past};

// The number of six bytes, lowest first.
fn number_of(six: &[u8; 6]) -> u64
    ensures { (digits 48 result ≡ bits_of six.now) × (result < 281474976710656) }
{
    let [a, b, c, d, e, f] = *six;
    u64::from_le_bytes([a, b, c, d, e, f, 0, 0])
}

// Six bytes go into the register.
fn take_six(acc: u64, six: u64) -> u64
    requires { six < 281474976710656 }
    ensures { result ≡ taken_six acc six }
{
    let v = acc % 281474976710656;
    let folded = v ^ v * 256 ^ v * 4096 ^ v * 16384 ^ v * 32768;
    acc / 281474976710656 ^ folded ^ six * 65536
}

// One byte goes into it.
fn take_byte(acc: u64, b: u8) -> u64
    ensures { result ≡ taken_byte acc b }
{
    let v = acc % 256;
    let folded = v ^ v * 64 ^ v * 128 ^ v * 16384 ^ v * 32768;
    acc / 256 ^ folded ^ u64::from(b) * 72057594037927936
}

// The register after sixes of bytes.
fn by_sixes(sixes: &[[u8; 6]]) -> u64
    ensures { shifts 64 result ≡ check (concat sixes.now) }
{
    let mut acc: u64 = 0;
    for six in sixes {
        acc = take_six(acc, number_of(six));
    }
    acc
}

// The register after more bytes.
fn by_bytes(start: u64, bytes: &[u8]) -> u64
    ensures { shifts 64 result ≡ fed (shifts 64 start) (bits_of bytes.now) }
{
    let mut acc = start;
    for &b in bytes {
        acc = take_byte(acc, b);
    }
    acc
}

// Sixteen shifts, but for a multiple of the polynomial.
fn sixteen_past(x: u64) -> u64
    ensures { result ≡ sixteen_past x }
{
    let v = x % 65536;
    x / 65536 ^ (v ^ v * 4096 ^ v * 32768)
}

// What 64 shifts make of the register.
fn settled(acc: u64) -> u16
    ensures { result ≡ shifts 64 acc }
{
    let folded = sixteen_past(sixteen_past(sixteen_past(acc)));
    crc::half_byte(crc::half_byte(crc::half_byte(crc::half_byte(folded)))) as u16
}

// The check of the bytes.
pub fn check(bytes: &[u8]) -> u16
    ensures { result ≡ check bytes.now }
{
    if bytes.len() < 8 {
        return crc::crc(bytes);
    }
    let (sixes, rest) = bytes.as_chunks::<6>();
    settled(by_bytes(by_sixes(sixes), rest))
}
