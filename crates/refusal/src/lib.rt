// Why a call refuses: each reason, and the paper's number of it.
//
// `specs/Numbers.antt` has the numbers. A call that answers a `Result` is done (0) where it is `Ok`.
#![tactic(auto)]

ghost use Rattle.std.specs.Prelude.{◌≡◌};
ghost use Rattle.refusal.specs.Numbers.{number_of, number_in};

#[derive(Clone, Copy, Debug, PartialEq, Eq)]
pub enum Refusal {
    // No path has the number.
    NoPath = 1,
    // The payload isn't 44 octets.
    Length = 2,
    Bip16 = 3,
    // The function type isn't one of the four.
    Function = 4,
    // A reserved or padding octet, or a field of the type's row, breaks its rule.
    Row = 5,
    // A CV or FFD with the expected TTSI, of another type or rate.
    OtherKind = 6,
    // There are 64 paths already.
    Full = 7,
    // A path expects the TTSI already.
    Taken = 8,
    // The path has closed all the slots that there can be.
    Limit = 9,
    // The image, or the record lent to the close in its place, breaks a rule.
    Broken = 10,
    // A lent buffer is too short.
    Short = 11,
    // A given value breaks its rule.
    Value = 12,
    // An FDI or BDI is wanted, and no defect stands.
    NoDefect = 13,
}

impl From<Refusal> for u8 {
    ghost from_gives = { λ refusal n. n ≡ number_of refusal };

    fn from(refusal: Refusal) -> u8 {
        refusal as u8
    }
}

// The paper's number of an answer: 0 where the call is done.
pub fn number<T: Drop>(answer: Result<T, Refusal>) -> u8
    ensures { result ≡ number_in answer }
{
    match answer {
        Ok(_) => 0,
        Err(refusal) => refusal as u8,
    }
}
