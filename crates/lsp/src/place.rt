// The close on a record that the host changes where it stands.
ghost use Rattle.std.specs.Prelude.{◌≡◌};
ghost use Rattle.lsp.specs.InPlace.{close_here_of};
ghost use Rattle.lsp.specs.Outcomes.{here_in};

use crate::close::Closed;
use crate::path::Lsp;
use refusal::Refusal;

#[tactic(auto, unfolding(crate::specs::InPlace::close_here_of))]
// The close of the record's open slot, which leaves the next state in its place: 10 where the record breaks a rule, else
// as the close by value answers.
pub fn close_in_place(l: &mut Lsp) -> Result<Closed, Refusal>
    ensures { (here_in result, l.new) ≡ close_here_of l.old }
{
    if !l.is_sound() {
        return Err(Refusal::Broken);
    }
    let (closed, next) = l.close()?;
    *l = next;
    Ok(closed)
}
