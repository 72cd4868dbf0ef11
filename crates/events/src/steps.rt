// What an event does to the path that it names, where the path lies: the path's step, or a short way to the same where
// there is one.
ghost use Rattle.std.specs.Prelude.{◌≡◌};
ghost use Rattle.events.specs.Framing.{Enough};
ghost use Rattle.events.specs.Paths.{step_of, quiet};
ghost use Rattle.events.specs.Own.{own_of};
ghost use Rattle.events.specs.Outcomes.{own_in, stepped_in};

use crate::framing::{CLOSE, PACKET};
use crate::own::{Own, is_own};
use lsp::{Fdi, Lsp};
use refusal::Refusal;
use window::Record;

// The close moves the rows on, and no FDI is there to fade.
fn is_quiet(l: &Lsp) -> bool
    ensures { result ≡ quiet l.now }
{
    l.fdi == Fdi::default() && l.state.is_steady()
}

#[tactic(auto, unfolding(crate::specs::Paths::step_of))]
// The path's step: a packet, a close or a server signal, by the field's octets.
fn taken(l: &mut Lsp, field: &[u8]) -> Result<Option<Record>, Refusal>
    requires { Enough field.now }
    ensures { stepped_in result l.new ≡ step_of l.old field.now }
{
    match field[0] {
        PACKET => {
            let (_, next) = l.receive(&field[4..])?;
            *l = next;
            Ok(None)
        }
        CLOSE => {
            let (closed, next) = l.close()?;
            *l = next;
            Ok(closed.handed)
        }
        _ => {
            *l = l.server(field[4])?;
            Ok(None)
        }
    }
}

#[tactic(auto, using(crate::proofs::Told::counts_step, crate::proofs::Told::moves_step))]
// Its own packet is counted, and a quiet slot moved on, with nothing else to do; else the path steps.
pub(crate) fn step(l: &mut Lsp, own: &Own, field: &[u8]) -> Result<Option<Record>, Refusal>
    requires owned { own_in own.now ≡ own_of l.old }
    requires enough { Enough field.now }
    ensures { stepped_in result l.new ≡ step_of l.old field.now }
{
    match field[0] {
        PACKET if is_own(own, &field[4..]) => l.state = l.state.receive(true),
        CLOSE if is_quiet(l) => l.state = l.state.moved_on(),
        _ => return taken(l, field),
    }
    Ok(None)
}
