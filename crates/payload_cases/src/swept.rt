// Every function type, every rate and every defect type, written into 50 octets of aa.
use crate::compare::{FILL, left};
use crate::counts::Counts;
use crate::samples::{Fields, T};
use payload::{DefectType, FunctionType};
use std::io;

// The answers, how many buffers were left as they were, and the sum of the numbers that were accepted.
struct Swept {
    answers: Counts,
    kept: u32,
    sum: u32,
}

// Each number up to the last, and what is written by it.
fn sweep<F: Fn(u16) -> Fields>(last: u16, fields: F) -> Swept
    requires { F.IsAlwaysCallable fields }
{
    let mut s = Swept {
        answers: Counts::none(),
        kept: 0,
        sum: 0,
    };
    for number in 0..=last {
        let mut b = [FILL; 50];
        let answer = fields(number).write(&T, &mut b);
        s.answers.count(refusal::number(answer));
        s.kept = s.kept.saturating_add(u32::from(left(&b) == 50));
        if answer.is_ok() {
            s.sum = s.sum.saturating_add(u32::from(number));
        }
    }
    s
}

fn show(rt: &impl Print, words: &str, s: Swept) -> io::Result<()> {
    let Swept { answers, kept, sum } = s;
    println!(rt; "{words}, answer:times{answers}")?;
    println!(rt; "{words}, buffers left as they were, sum of those accepted: {kept} {sum}")
}

fn octet(x: u16) -> u8 {
    (x % 256) as u8
}

pub(crate) fn claims(rt: &impl Print) -> io::Result<()> {
    let types = sweep(
        255,
        |ty| Fields {
            ty: octet(ty),
            rate: 3,
            dt: DefectType::Locv as u16,
            dl: 0,
        },
    );
    show(
        rt,
        "each function type from 0 to 255 with T, rate 3, DT 0201",
        types,
    )?;
    let rates = sweep(255, |rate| Fields::ffd(octet(rate)));
    show(rt, "FFD with T and each rate from 0 to 255", rates)?;
    let fdis = sweep(
        u16::MAX,
        |dt| Fields::defect(FunctionType::Fdi as u8, dt, 0),
    );
    show(rt, "FDI with T and each DT from 0000 to ffff", fdis)?;
    let bdis = sweep(
        u16::MAX,
        |dt| Fields::defect(FunctionType::Bdi as u8, dt, 0),
    );
    show(rt, "BDI with T and each DT from 0000 to ffff", bdis)
}
