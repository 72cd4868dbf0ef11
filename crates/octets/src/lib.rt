// Numbers as octets, the most significant first, at any width.
//
// `specs/Number.antt` says which octets a number has and which number octets stand for, `specs/Law.antt` that the two are inverse.
#![tactic(auto)]

ghost use Rattle.std.specs.Prelude.{◌≡◌, length};
ghost use Rattle.octets.specs.Number.{octets, read_of, over};

// The most octets that a number has.
const MOST: usize = 8;

// The number that at most eight octets stand for; 0 where there are more.
pub fn number(s: &[u8]) -> u64
    ensures { result ≡ read_of s.now }
{
    if MOST < s.len() {
        return 0;
    }
    let mut x = 0;
    for &b in s {
        x = x * 256 + u64::from(b);
    }
    x
}

// The low octets of x, as many as s has.
pub fn put_number(s: &mut [u8], x: u64)
    ensures { s.new ≡ octets (length s.old) x }
{
    let mut rest = x;
    // By index: of `iter_mut().rev()` a proof doesn't learn what the slice ends as.
    for i in (0..s.len()).rev() {
        s[i] = (rest % 256) as u8;
        rest /= 256;
    }
}

// The octets of `from`, as many as both have, over the first of `to`.
pub fn copy(from: &[u8], to: &mut [u8])
    ensures { to.new ≡ over from.now to.old }
{
    let n = from.len().min(to.len());
    to[..n].copy_from_slice(&from[..n]);
}
