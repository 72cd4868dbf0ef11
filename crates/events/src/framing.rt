// One field of the input: tag, length, content.
ghost use Rattle.std.specs.Prelude.{◌≡◌, ◌≤◌, length};
ghost use Rattle.octets.specs.Parts.{octet_at};
ghost use Rattle.events.specs.Framing.{fits, signal_fits, frame_of};
ghost use Rattle.events.specs.Outcomes.{field_in};

// Tags, as numbers and no enum: an octet is matched where it stands, and a fifth tag is no error of its own.
pub(crate) const ADD: u8 = 0x11;

pub(crate) const PACKET: u8 = 0x12;

pub(crate) const CLOSE: u8 = 0x13;

pub(crate) const SERVER: u8 = 0x14;

// Why octets don't begin with a whole field: more octets may complete it, or it is bad whatever follows.
#[derive(Clone, Copy, Debug, PartialEq, Eq)]
pub enum Rest {
    Cut,
    Bad,
}

// Whether a field of the tag may have so many octets of content.
fn fits(tag: u8, n: usize) -> bool
    ensures { result ≡ fits tag n }
{
    match tag {
        ADD => n == 25,
        PACKET => 1 <= n && n <= 1024,
        CLOSE => n == 1,
        SERVER => n == 2,
        _ => false,
    }
}

// A server signal that is on; the other is 0.
const ON: u8 = 1;

// Whether the signal of a server field is one.
fn signal_fits(s: &[u8]) -> bool
    requires { (1 ≤ length s.now) × (octet_at s.now 0 ≡ 0x14 → 5 ≤ length s.now) }
    ensures { result ≡ signal_fits s.now }
{
    s[0] != SERVER || s[4] <= ON
}

#[tactic(auto, using(crate::proofs::Frames::two_octets), unfolding(crate::specs::Framing::frame_of))]
// How many octets the field has that the octets begin with.
pub fn frame(s: &[u8]) -> Result<usize, Rest>
    ensures { field_in result ≡ frame_of s.now }
{
    let &[tag, high, low, ..] = s else {
        return Err(Rest::Cut);
    };
    let n = usize::from(u16::from_be_bytes([high, low]));
    if !fits(tag, n) {
        return Err(Rest::Bad);
    }
    let size = 3 + n;
    if s.len() < size {
        return Err(Rest::Cut);
    }
    if !signal_fits(s) {
        return Err(Rest::Bad);
    }
    Ok(size)
}
