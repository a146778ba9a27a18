use std::io;
use std::io::{Input, Write};

/// The standard input of a runtime.
pub fn input<R: Input>(rt: &R) -> R::Reader {
    rt.reader()
}

/// The standard output of a runtime. What it takes leaves at once.
#[derive(Drop)]
pub struct Output<R> {
    rt: R,
}

impl<R: Print> Output<R> {
    pub fn new(rt: R) -> Output<R> {
        Output { rt }
    }
}

impl<R: Print> Write for Output<R> {
    fn write(&mut self, buf: &[u8]) -> io::Result<usize> {
        self.rt.write_some(buf)
    }

    fn flush(&mut self) -> io::Result<()> {
        Ok(())
    }
}
