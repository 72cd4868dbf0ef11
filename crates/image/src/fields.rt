// The fields of a table, one after the other.
ghost use Rattle.std.specs.Prelude.{◌≡◌, ◌++◌, ◌+◌, ◌-◌, ◌*◌, ◌≤◌, [], length, replicate, map, drop};
ghost use Rattle.std.specs.List.{list_any};
ghost use Rattle.lsp.specs.Steps.{same};
ghost use Rattle.field.specs.Field.{path_of, ttsi_in};
ghost use Rattle.table.specs.Steps.{blank};
ghost use Rattle.image.specs.Image.{all_fields};

use crate::Field;
use crate::marks::{mark, same_octets};
use lsp::Lsp;

fn ttsi(field: &Field) -> &[u8]
    ensures { result.now ≡ ttsi_in field.now }
{
    &field[4..24]
}

// Whether the TTSI is that of one of the fields.
fn is_seen(fields: &[Field], t: &[u8]) -> bool
    ensures { result ≡ list_any (λ f. same t.now (ttsi_in f)) fields.now }
{
    fields.iter().any(|f| same_octets(t, ttsi(f)))
}

// Whether they are fields whose TTSIs differ.
#[tactic(auto, using(crate::proofs::Chunks::no_field, crate::proofs::Chunks::fields_end))]
pub(crate) fn are_fields(fields: &[Field]) -> bool
    ensures { result ≡ all_fields [] fields.now }
{
    let mut marks = [false; 512];
    for (i, f) in fields.iter().enumerate() {
        if !field::is_field(f) {
            return false;
        }
        let m = mark(f);
        if marks[m] && is_seen(&fields[..i], ttsi(f)) {
            return false;
        }
        marks[m] = true;
    }
    true
}

// Their paths, and the places past them as in an empty table.
#[tactic(auto, using(crate::proofs::Chunks::placed_next))]
pub(crate) fn paths_of(fields: &[Field]) -> [Lsp; 64]
    requires { length fields.now ≤ 64 }
    ensures { result ≡ map path_of fields.now ++ replicate (64 - length fields.now) blank }
{
    let blank = Lsp::new(0, [0; 20], 0);
    let mut lsps = [blank; 64];
    for (i, f) in fields.iter().enumerate() {
        lsps[i] = field::path_of(f);
    }
    lsps
}
