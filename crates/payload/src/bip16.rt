// BIP16, summed from the octets where they lie: its first octet is the exclusive-or at the even offsets, its second that at the odd ones.
ghost use Rattle.std.specs.Prelude.{◌≡◌, ◌%◌, length};
ghost use Rattle.payload.specs.Layout.{bip};

pub(crate) fn bip16(s: &[u8]) -> [u8; 2]
    requires { length s.now % 2 ≡ 0 }
    ensures { result ≡ bip s.now }
{
    let (words, _) = s.as_chunks::<2>();
    let mut even = 0;
    let mut odd = 0;
    for word in words {
        even ^= word[0];
        odd ^= word[1];
    }
    [even, odd]
}
