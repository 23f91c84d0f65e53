// Two lists of the caller's that are filled side by side: for each find its start in the one and a small number that goes with it in the
// other, as many as fit the shorter one, and their exact number. Serves the rooms above. They are two, as C lends two (marks_salvage).
#![tactic(auto)]

ghost use Rattle.std.specs.Prelude.{◌≡◌, List, [], ◌∷◌, ◌++◌, ℕ, ◌+◌, ◌<◌, length, replicate};
ghost use Rattle.finds.specs.Finds.{filled};
ghost use Rattle.two_lists.specs.TwoLists.{Both};

// Writes the start and the number that follow `count` others, where both fit; the answer is how many there are.
pub fn note(starts: &mut [u32], tags: &mut [u8], count: usize, s: words::Place, tag: u8) -> usize
    requires { count < 4294967295 }
    ensures { (result ≡ count + 1)
        × ((l j S G : List ℕ) → length l ≡ count → length j ≡ count → Both l j S G starts.old tags.old
        → Both (l ++ (s.0 ∷ [])) (j ++ (tag ∷ [])) S G starts.new tags.new) }
{
    if count < starts.len().min(tags.len()) {
        starts[count] = s.0;
        tags[count] = tag;
    }
    count + 1
}

// Numbers as many finds of a mark that is looked for alone as fit the list.
pub fn number_alone(numbers: &mut [u8], count: usize)
    ensures { numbers.new ≡ filled (replicate count 0) numbers.old }
{
    let end = numbers.len().min(count);
    numbers[..end].fill(0);
}
