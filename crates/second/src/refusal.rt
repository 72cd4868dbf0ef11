// Why an event is not done.

// The refusals, by the paper's numbers.
#[derive(Clone, Copy)]
pub(crate) enum Refusal {
    NoPath = 1,
    Length = 2,
    Bip16 = 3,
    Function = 4,
    Row = 5,
    OtherKind = 6,
    Full = 7,
    Taken = 8,
    Value = 12,
}

// A refusal; or there is no room for a slot or for a count, which the paper does not know.
#[derive(Clone, Copy)]
pub(crate) enum NotDone {
    Refused(Refusal),
    NoRoom,
}

impl From<Refusal> for NotDone {
    fn from(refusal: Refusal) -> NotDone {
        NotDone::Refused(refusal)
    }
}
