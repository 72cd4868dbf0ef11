// The records program reckoned a second time, from the paper alone. It reads the events from standard input and
// prints the lines that the records program must print. It shares no crate with the machine, and runs none: it keeps
// the exact counts of every slot and finds each record by looking back over them, so no mistake of a carried state
// can be in both.
//
// Where a path's kept slots are used up it prints `full` and the field's offset, and stops. A read that fails ends
// the input there; its error ends the program once the lines are printed. A write that fails ends it at once.
#![tactic(auto)]

mod back;
mod event;
mod field;
mod input;
mod paths;
mod reading;
mod refusal;
mod slots;

use field::{Bad, Content};
use input::Source;
use paths::Paths;
use refusal::NotDone;
use std::io;

// A proved loop has to end, and nothing says that an input does: this one ends at more events than any input has.
fn run(rt: &impl Print, source: &mut Source, paths: &mut Paths) -> io::Result<()> {
    let mut content: Content = [0; field::MOST];
    for events in 0..u64::MAX {
        let offset = source.offset();
        let event = match field::read(source, &mut content) {
            Ok(Some(event)) => event,
            Ok(None) => return println!(rt; "end {events}"),
            Err(Bad) => return println!(rt; "bad {offset}"),
        };
        match event::answer(paths, event) {
            Ok(None) => {}
            Ok(Some((lsp, record))) => println!(rt; "{lsp} {record}")?,
            Err(NotDone::Refused(refusal)) => println!(rt; "r {} {}", events + 1, refusal as u8)?,
            Err(NotDone::NoRoom) => return println!(rt; "full {offset}"),
        }
    }
    Ok(())
}

fn main(rt: HostRuntime) -> io::Result<()> {
    let mut source = Source::new(rt.stdin());
    let mut paths = [None; paths::MOST];
    run(&rt, &mut source, &mut paths)?;
    source.result()
}
