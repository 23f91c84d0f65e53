// Copies of bytes. Serves the files and the searchers. A loop of our own: `copy_from_slice` calls memmove, and the library that is shipped
// calls nothing outside it (tools/dist-tests).
#![tactic(auto)]

ghost use Rattle.std.specs.Prelude.{◌≡◌, length};

// Writes all of a slice into another of its length.
pub fn copy(from: &[u8], to: &mut [u8])
    requires { length to.old ≡ length from.now }
    ensures { to.new ≡ from.now }
{
    for (i, &b) in from.iter().enumerate() {
        to[i] = b;
    }
}
