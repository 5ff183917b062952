// What is told while tickets are held.
use compare::sample::Sample;
use runs::call::{Answer, Call};
use std::io;
use telling::follow::tell;

// A host that holds a ticket does not leave because a line could not be printed: the first failure is kept for the end.
#[derive(Drop)]
pub struct Log<'a> {
    rt: &'a HostRuntime,
    failed: io::Result<()>,
}

impl<'a> Log<'a> {
    pub fn new(rt: &'a HostRuntime) -> Log<'a> {
        Log { rt, failed: Ok(()) }
    }

    fn note(&mut self, printed: io::Result<()>) {
        if self.failed.is_ok() {
            self.failed = printed;
        }
    }

    pub fn remark(&mut self, text: &str) {
        let printed = println!(self.rt; "\n{text}");
        self.note(printed);
    }

    pub fn tell(&mut self, call: Call, answer: Answer, sample: Sample) {
        let printed = tell(self.rt, call, answer, sample);
        self.note(printed);
    }

    pub fn end(self) -> io::Result<()> {
        self.failed
    }
}
