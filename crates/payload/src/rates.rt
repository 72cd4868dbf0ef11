// The six FFD rates and the kinds of a path. Intervals and slots are in ms, an FDI's life is in slots.
ghost use Rattle.std.specs.Prelude.{◌≡◌};
ghost use Rattle.payload.specs.Rates.{is_rate, interval_of, rate_life_of, is_kind, slot_of, life_of};

//
// A rate and a kind are numbers, not enums: `interval_of`, `rate_life_of`, `slot_of` and `life_of` answer any number, and a path holds any.
// Interval and life are two tables with a constant of its own for each entry, as the paper has them; one function over both would say less.
#[derive(Clone, Copy, Debug, PartialEq, Eq)]
pub struct Rate;

impl Rate {
    pub const INTERVAL_1: u16 = 10;

    pub const INTERVAL_2: u16 = 20;

    pub const INTERVAL_3: u16 = 50;

    pub const INTERVAL_4: u16 = 100;

    pub const INTERVAL_5: u16 = 200;

    pub const INTERVAL_6: u16 = 500;

    pub const LIFE_1: u16 = 300;

    pub const LIFE_2: u16 = 150;

    pub const LIFE_3: u16 = 60;

    pub const LIFE_4: u16 = 30;

    pub const LIFE_5: u16 = 15;

    pub const LIFE_6: u16 = 6;

    // Whether the code is a rate's.
    pub fn is_rate(code: u8) -> bool
        ensures { result ≡ is_rate code }
    {
        1 <= code && code <= 6
    }

    // The time from one FFD packet to the next; 0 where the code is no rate.
    pub fn interval(code: u8) -> u16
        ensures { result ≡ interval_of code }
    {
        match code {
            1 => Rate::INTERVAL_1,
            2 => Rate::INTERVAL_2,
            3 => Rate::INTERVAL_3,
            4 => Rate::INTERVAL_4,
            5 => Rate::INTERVAL_5,
            6 => Rate::INTERVAL_6,
            _ => 0,
        }
    }

    // How many slots an FDI stands for after its own; 0 where the code is no rate.
    pub fn life(code: u8) -> u16
        ensures { result ≡ rate_life_of code }
    {
        match code {
            1 => Rate::LIFE_1,
            2 => Rate::LIFE_2,
            3 => Rate::LIFE_3,
            4 => Rate::LIFE_4,
            5 => Rate::LIFE_5,
            6 => Rate::LIFE_6,
            _ => 0,
        }
    }
}

// A path's kind: 0 for CV, else its rate code.
#[derive(Clone, Copy, Debug, PartialEq, Eq)]
pub struct Kind;

impl Kind {
    pub const CV: u8 = 0;

    pub const CV_SLOT: u16 = 1000;

    pub const CV_LIFE: u16 = 3;

    // Whether the number is a kind.
    pub fn is_kind(kind: u8) -> bool
        ensures { result ≡ is_kind kind }
    {
        kind <= 6
    }

    // A slot's length; 0 where the number is no kind.
    pub fn slot(kind: u8) -> u16
        ensures { result ≡ slot_of kind }
    {
        if kind == Kind::CV {
            return Kind::CV_SLOT;
        }
        Rate::interval(kind)
    }

    // An FDI's life on a path of the kind; 0 where the number is no kind.
    pub fn life(kind: u8) -> u16
        ensures { result ≡ life_of kind }
    {
        if kind == Kind::CV {
            return Kind::CV_LIFE;
        }
        Rate::life(kind)
    }
}
