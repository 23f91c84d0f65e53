// The caller's list of finds: the first of them, as many as fit, and their exact number. This room alone writes finds; every search above
// it does so here. The count goes on where the list is full, so it is not the list's length.
#![tactic(auto)]

ghost use Rattle.std.specs.Prelude.{◌≡◌, List, [], ◌∷◌, ◌++◌, ℕ, ◌+◌, ◌<◌, length};
ghost use Rattle.finds.specs.Finds.{filled};

// How often a word was found, and how many letters were read for it.
#[derive(Clone, Copy, Debug, PartialEq, Eq)]
pub struct Tally {
    pub count: usize,
    pub letters: u64,
}

// Writes the find that follows `count` others into the caller's list, where it fits; the answer is the number of finds.
pub fn note(finds: &mut [u32], count: usize, s: words::Place) -> usize
    requires { count < 4294967295 }
    ensures { (result ≡ count + 1)
        × ((l f : List ℕ) → length l ≡ count → finds.old ≡ filled l f → finds.new ≡ filled (l ++ (s.0 ∷ [])) f) }
{
    if finds.len() <= count {
        return count + 1;
    }
    finds[count] = s.0;
    count + 1
}
