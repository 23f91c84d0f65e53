// Rows of bytes as rows of wider numbers, and back. Serves the tables and the bytes of searchers.
#![tactic(auto)]

ghost use Rattle.std.specs.Prelude.{◌≡◌, ℕ, ◌<◌, length};
ghost use Rattle.words.specs.Lists.{at};

// Writes all bytes of a slice into another of its length, as wider numbers.
pub fn widen(from: &[u8], to: &mut [u16])
    requires { length to.old ≡ length from.now }
    ensures { to.new ≡ from.now }
{
    for (i, &b) in from.iter().enumerate() {
        to[i] = u16::from(b);
    }
}

// The same of wider numbers that are bytes. Not one generic function of both: into a wider number every byte goes, back only some do.
pub fn narrow(from: &[u16], to: &mut [u8])
    requires { (length to.old ≡ length from.now) × ((i : ℕ) → at from.now i < 256) }
    ensures { to.new ≡ from.now }
{
    for (i, &n) in from.iter().enumerate() {
        to[i] = n as u8;
    }
}
