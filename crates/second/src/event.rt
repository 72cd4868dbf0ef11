// What each event does.
use crate::back::Record;
use crate::field::Event;
use crate::paths;
use crate::paths::Paths;
use crate::refusal::NotDone;

// The record that the event ends, with its path's number. No server signal goes into a record.
pub(crate) fn answer(paths: &mut Paths, event: Event) -> Result<Option<(u8, Record)>, NotDone> {
    match event {
        Event::Add { kind, ttsi } => paths::add(paths, kind, ttsi)?,
        Event::Packet { lsp, payload } => paths::get(paths, lsp)?.receive(payload)?,
        Event::Close { lsp } => {
            let record = paths::get(paths, lsp)?.close()?;
            return Ok(record.map(|record| (lsp, record)));
        }
        Event::Server { lsp } => {
            paths::get(paths, lsp)?;
        }
    }
    Ok(None)
}
