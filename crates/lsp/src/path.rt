// A path's state, a new path's, and the server signal.
ghost use Rattle.std.specs.Prelude.{◌≡◌};
ghost use Rattle.lsp.specs.Steps.{new_of, server_of};
ghost use Rattle.lsp.specs.Outcomes.{signalled_in};

use refusal::Refusal;
use window::State;

// An FDI received and the closes until it is gone; all zero where none stands, as the image has it: any octets read as a path.
#[derive(Clone, Copy, Debug, PartialEq, Eq, Default)]
pub struct Fdi {
    pub left: u16,
    pub dt: u16,
    pub dl: u32,
}

#[derive(Clone, Copy, Debug, PartialEq, Eq)]
pub struct Lsp {
    // 0 for CV, else the rate code, and any other number where `new` was given one; the expected TTSI; the local defect location.
    pub kind: u8,
    pub ttsi: [u8; 20],
    pub dl: u32,
    pub state: State,
    pub server: bool,
    pub fdi: Fdi,
}

impl Lsp {
    // A path as adding leaves it.
    pub fn new(kind: u8, ttsi: [u8; 20], dl: u32) -> Lsp
        ensures { result ≡ new_of kind ttsi dl }
    {
        Lsp {
            kind,
            ttsi,
            dl,
            state: State::fresh(),
            server: false,
            fdi: Fdi::default(),
        }
    }

    // The server signal on (1) or off (0); 12 for any other value.
    pub fn server(self, value: u8) -> Result<Lsp, Refusal>
        ensures { signalled_in self result ≡ server_of self value }
    {
        if 1 < value {
            return Err(Refusal::Value);
        }
        Ok(Lsp {
            server: value == 1,
            ..self
        })
    }
}
