// Rates, kinds and defect types: how many there are, and the sums over every number of what each has.
use payload::{DefectType, Kind, Rate};
use std::io;

// The sum over every code of what it has.
fn sum<F: Fn(u8) -> u16>(of: F) -> u32
    requires { F.IsAlwaysCallable of }
{
    (0..=255u8).fold(0u32, |n, code| n.saturating_add(u32::from(of(code))))
}

fn codes(rt: &impl Print) -> io::Result<()> {
    for k in 0..8 {
        let interval = Rate::interval(k);
        let rate_life = Rate::life(k);
        let slot = Kind::slot(k);
        let life = Kind::life(k);
        println!(rt;
            "code {k} as a rate, interval and life, as a kind, slot and life: {interval} {rate_life} {slot} {life}"
        )?;
    }
    Ok(())
}

pub(crate) fn claims(rt: &impl Print) -> io::Result<()> {
    codes(rt)?;
    let rates = (0..=255).filter(|k| Rate::is_rate(*k)).count();
    let intervals = sum(|k| Rate::interval(k));
    let lives = sum(|k| Rate::life(k));
    println!(rt;
        "codes 0 to 255, rates among them, sum of intervals, sum of lives: {rates} {intervals} {lives}"
    )?;
    let kinds = (0..=255).filter(|k| Kind::is_kind(*k)).count();
    let slots = sum(|k| Kind::slot(k));
    let lives = sum(|k| Kind::life(k));
    println!(rt;
        "codes 0 to 255, kinds among them, sum of slots, sum of lives: {kinds} {slots} {lives}"
    )?;
    let defects = (0..=u16::MAX)
        .filter(|dt| DefectType::is_defect(*dt))
        .count();
    println!(rt; "numbers 0000 to ffff, defect types among them: {defects}")
}
