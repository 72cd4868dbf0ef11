// Prints, and drops a write that fails: a line that could not be written is no failure of what is tried, and the next
// is printed all the same.
// Each program has its own: in a crate of theirs each call would need a promise and two wrong answers, and be longer
// for it.
use std::fmt::Display;
use std::io;

#[derive(Clone, Copy)]
pub(crate) struct Unheeded<'a, R>(pub &'a R);

impl<R: Print> Print for Unheeded<'_, R> {
    fn print<D: Display + Drop>(&self, value: D) -> io::Result<()> {
        self.0.print(value).ok();
        Ok(())
    }

    fn println<D: Display + Drop>(&self, value: D) -> io::Result<()> {
        self.0.println(value).ok();
        Ok(())
    }

    fn write_all(&self, bytes: &[u8]) -> io::Result<()> {
        self.0.write_all(bytes).ok();
        Ok(())
    }
}
