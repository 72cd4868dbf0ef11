// A path's field, written.
ghost use Rattle.std.specs.Prelude.{◌≡◌, ◌+◌, ◌≤◌, length};
ghost use Rattle.octets.specs.Parts.{laid};
ghost use Rattle.refusal.specs.Numbers.{number_in};
ghost use Rattle.window.specs.View.{unavailable_of};
ghost use Rattle.field.specs.Field.{write_of};

use lsp::Lsp;
use refusal::Refusal;
use window::Availability;

fn put(s: &mut [u8; 79], at: usize, from: &[u8])
    requires { at + length from.now ≤ 79 }
    ensures { s.new ≡ laid s.old at from.now }
{
    s[at..at + from.len()].copy_from_slice(from);
}

// Whether the path is unavailable, as 1 or 0, and since when.
fn unavailable_of(a: Availability) -> (u8, u64)
    ensures { result ≡ unavailable_of a }
{
    match a {
        Availability::Available => (0, 0),
        Availability::Unavailable { since } => (1, since),
    }
}

// The field of a path over the first 79 octets of s; Short where it has fewer.
pub fn write(s: &mut [u8], l: Lsp) -> Result<(), Refusal>
    ensures { (number_in result, s.new) ≡ write_of l s.old }
{
    let Some(field) = s.first_chunk_mut() else {
        return Err(Refusal::Short);
    };
    let st = l.state;
    let (unavailable, since) = unavailable_of(st.availability);
    let fdi = l.fdi;
    put(field, 0, &[2, 0, 76]);
    put(field, 3, &[l.kind]);
    put(field, 4, &l.ttsi);
    put(field, 24, &l.dl.to_be_bytes());
    put(field, 28, &st.closed.to_be_bytes());
    put(field, 36, &st.e);
    put(field, 47, &st.u);
    put(field, 58, &st.defect.code().to_be_bytes());
    put(field, 60, &[st.stood]);
    put(field, 61, &[unavailable]);
    put(field, 62, &since.to_be_bytes());
    put(field, 70, &[u8::from(l.server)]);
    put(field, 71, &fdi.left.to_be_bytes());
    put(field, 73, &fdi.dt.to_be_bytes());
    put(field, 75, &fdi.dl.to_be_bytes());
    Ok(())
}
