// Numbers in groups of seven bits, as traces and sessions hold them, with the place of a fault.
// Every public function is total: it asks nothing of the bytes nor of the place. The place goes in
// and comes out, and no cursor keeps it: what is read is promised for any place.
#![tactic(auto)]

ghost use Rattle.std.specs.Prelude.{◌≡◌};
ghost use Rattle.numbers.specs.Number.{number_of, number, number_most, length_most};
ghost use Rattle.numbers.specs.Width.{Width};

// Where the first fault of a number, or of what is made of numbers, is placed.
#[derive(Clone, Copy, Debug, PartialEq, Eq)]
pub struct Fault {
    pub place: usize,
}

// The most groups that a number below 2^32 has, and the most that the last of these may be.
const GROUPS: usize = 5;

const TOP: usize = 15;

// A number of at most `groups` groups, the last of these at most `top`, and the place after it.
// `left` is no index: the definition counts it down beside the weight.
#[tactic(auto, using(crate::proofs::Groups::turns))]
fn read_groups(bytes: &[u8], at: usize, groups: usize, top: usize) -> Result<(usize, usize), Fault>
    requires { Width groups top }
    ensures { result ≡ number_of groups top bytes.now at }
{
    let mut left = groups;
    let mut weight: usize = 1;
    let mut value: usize = 0;
    for place in at..bytes.len() {
        let byte = bytes[place] as usize;
        if left == 1 && top < byte {
            return Err(Fault { place: at });
        }
        if byte < 128 {
            if byte == 0 && at < place {
                return Err(Fault { place: at });
            }
            return Ok((value + byte * weight, place + 1));
        }
        value += (byte - 128) * weight;
        weight *= 128;
        left -= 1;
    }
    Err(Fault { place: bytes.len() })
}

// The number at a place, and the place after its last byte.
#[tactic(auto, unfolding(crate::specs::Number::number))]
pub fn read(bytes: &[u8], at: usize) -> Result<(usize, usize), Fault>
    ensures { result ≡ number bytes.now at }
{
    read_groups(bytes, at, GROUPS, TOP)
}

// The same of a number that may be at most `most`.
#[tactic(auto, unfolding(crate::specs::Number::number_most, crate::specs::Number::within))]
pub fn read_most(bytes: &[u8], at: usize, most: usize) -> Result<(usize, usize), Fault>
    ensures { result ≡ number_most bytes.now at most }
{
    let (value, next) = read(bytes, at)?;
    if most < value {
        return Err(Fault { place: at });
    }
    Ok((value, next))
}

// The same of a length, which so many bytes follow: the length, and the place of its bytes.
#[tactic(auto, using(crate::proofs::Most::most_places), unfolding(crate::specs::Number::length_most))]
pub fn read_length(bytes: &[u8], at: usize, most: usize) -> Result<(usize, usize), Fault>
    ensures { result ≡ length_most bytes.now at most }
{
    let (length, start) = read_most(bytes, at, most)?;
    if bytes.len() - start < length {
        return Err(Fault { place: bytes.len() });
    }
    Ok((length, start))
}
