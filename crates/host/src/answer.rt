// The close's answer, as octets.
ghost use Rattle.std.specs.Prelude.{◌≡◌, ℕ};
ghost use Rattle.window.specs.View.{record_of};
ghost use Rattle.octets.specs.Parts.{joined};
ghost use Rattle.host.specs.Calls.{answer_parts};

use lsp::Closed;
use window::Record;

// The record's number, and its from and until; all 0 where there is none.
fn record_of(handed: Option<Record>) -> (u8, (u64, u64))
    ensures { result ≡ record_of handed }
{
    match handed {
        None => (0, (0, 0)),
        Some(Record::U { from, until }) => (1, (from, until)),
        Some(Record::B { from, until }) => (2, (from, until)),
    }
}

pub(crate) fn octets(closed: Closed) -> [u8; 27]
    ensures { result ≡ joined (answer_parts closed.defect closed.out closed.handed) }
{
    let Closed {
        defect,
        out,
        handed,
    } = closed;
    let (record, (from, until)) = record_of(handed);
    let mut s = [0; 27];
    s[0..2].copy_from_slice(&defect.code().to_be_bytes());
    s[2..4].copy_from_slice(&out.dt.to_be_bytes());
    s[4..8].copy_from_slice(&out.dl.to_be_bytes());
    s[8..11].copy_from_slice(&[u8::from(out.alarm), u8::from(out.suppression), record]);
    s[11..19].copy_from_slice(&from.to_be_bytes());
    s[19..27].copy_from_slice(&until.to_be_bytes());
    s
}
