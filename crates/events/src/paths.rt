// The paths, and an event on them.
ghost use Rattle.std.specs.Prelude.{◌≡◌, map};
ghost use Rattle.events.specs.Framing.{Enough};
ghost use Rattle.events.specs.Event.{tag_in, told_of};
ghost use Rattle.events.specs.Own.{own_of};
ghost use Rattle.events.specs.Outcomes.{own_in, told_in};

use crate::framing::ADD;
use crate::own::{Own, owns_of};
use crate::steps::step;
use refusal::Refusal;
use table::Table;
use window::Record;

// The paths, each with its own packet.
#[derive(Clone, Copy)]
pub(crate) struct Paths {
    pub table: Table,
    owns: [Own; 64],
    ghost owned: { map own_in owns ≡ map own_of table.lsps },
}

impl Paths {
    // Made where they are kept: a call of its own would hand 9 KB back at every run.
    #[inline(always)]
    pub(crate) fn of(table: Table) -> Paths
        ensures { result.table ≡ table }
    {
        Paths {
            owns: owns_of(&table.lsps),
            table,
        }
    }

    #[tactic(auto, using(crate::proofs::Told::told_add, crate::proofs::Told::four_octets))]
    // An add: the path has its own packet from then on. On its own, so that no other event makes room for its table.
    fn add(&mut self, field: &[u8]) -> Result<Option<Record>, Refusal>
        requires enough { Enough field.now }
        requires tag { tag_in field.now ≡ 0x11 }
        ensures { told_in result self.new.table ≡ told_of self.old.table field.now }
    {
        let dl = u32::from_be_bytes([field[24], field[25], field[26], field[27]]);
        let (_, next) = self.table.add(field[3], &field[4..24], dl)?;
        *self = Paths::of(next);
        Ok(None)
    }

    #[tactic(auto, using(crate::proofs::Told::absent, crate::proofs::Told::own_at, crate::proofs::Told::stepped_told))]
    // An event, by its field's octets.
    pub(crate) fn event(&mut self, field: &[u8]) -> Result<Option<Record>, Refusal>
        requires { Enough field.now }
        ensures { told_in result self.new.table ≡ told_of self.old.table field.now }
    {
        if field[0] == ADD {
            return self.add(field);
        }
        let i = usize::from(field[3]);
        if self.table.present() <= i {
            return Err(Refusal::NoPath);
        }
        step(&mut self.table.lsps[i], &self.owns[i], field)
    }
}
