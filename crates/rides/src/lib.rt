// Reading the header of a ride: whether `.FIT` at a place is in one, where it begins, and whether the ride that it declares ends within the
// text. What it declares comes from a stranger: it decides that and nothing else. Serves the lister.
#![tactic(auto)]

ghost use Rattle.std.specs.Prelude.{◌≡◌, ◌+◌, ◌<◌, ◌≤◌, length};
ghost use Rattle.rides.specs.Rides.{allowed, data_size};
ghost use Rattle.rides.specs.Answers.{kind_number, header_of};

// The kinds of a ride. A list of kinds holds them as numbers.
#[derive(Clone, Copy, Debug, PartialEq, Eq)]
pub enum Kind {
    Cut,
    Whole,
}

impl From<Kind> for u8 {
    ghost from_gives = { λ kind number. number ≡ kind_number kind };

    fn from(kind: Kind) -> u8 {
        match kind {
            Kind::Cut => 0,
            Kind::Whole => 1,
        }
    }
}

// Where a listed header begins, and its ride's kind.
#[derive(Clone, Copy, Debug, PartialEq, Eq)]
pub struct Header {
    pub start: words::Place,
    pub kind: Kind,
}

// Whether a header may have so many bytes.
#[tactic(auto, using(std::proofs::lemmas::Bool::Decides::nat_tests), unfolding(crate::specs::Rides::allowed))]
fn is_header_size(size: u8) -> bool
    ensures { result ≡ allowed size }
{
    size == 12 || size == 14
}

// How many bytes of data the header at a place declares.
fn data_size(text: &[u8], s: usize) -> u32
    requires { (s + 8 ≤ length text.now) × (length text.now < 4294967295) }
    ensures { result ≡ data_size text.now s }
{
    u32::from_le_bytes([text[s + 4], text[s + 5], text[s + 6], text[s + 7]])
}

// The header that `.FIT` at a place is in.
pub fn read_header(text: &[u8], q: words::Place) -> Option<Header>
    requires { (q.0 + 4 ≤ length text.now) × (length text.now < 4294967295) }
    ensures { result ≡ header_of text.now q.0 }
{
    let earliest = 8;
    if q.0 < earliest {
        return None;
    }
    let start = words::Place(q.0 - 8);
    let first = start.0 as usize;
    let size = text[first];
    if !is_header_size(size) {
        return None;
    }
    let behind = first + (size as usize);
    let least = behind;
    if text.len() < least {
        return None;
    }
    let end = (behind as u64) + u64::from(data_size(text, first)) + 2;
    if (text.len() as u64) < end {
        return Some(Header {
            start,
            kind: Kind::Cut,
        });
    }
    Some(Header {
        start,
        kind: Kind::Whole,
    })
}
