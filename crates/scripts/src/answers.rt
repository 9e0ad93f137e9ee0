// The lines that calls are answered with.
ghost use Rattle.std.specs.Prelude.{◌≡◌, ◌++◌, take, OnOk};
ghost use Rattle.scripts.specs.Lines.{ok_line, none_line, bytes_line, fault_line, unknown_line, done_line, found_line};

use printing::push_quoted;
use std::alloc::{AllocError, Global};
use text::{Fault, FaultReport};

// The answers so far, a line each or more.
#[derive(Drop)]
pub(crate) struct Answers {
    lines: Vec<u8>,
}

impl Answers {
    pub(crate) fn new(heap: Global) -> Answers {
        Answers {
            lines: Vec::new(heap),
        }
    }

    pub(crate) fn into_bytes(self) -> Vec<u8> {
        self.lines
    }

    pub(crate) fn push_text(&mut self, text: &[u8]) -> Result<(), AllocError>
        ensures { OnOk result (self.new.lines.items ≡ self.old.lines.items ++ text.now) }
    {
        self.lines.extend_from_slice(text)
    }

    pub(crate) fn push_ok(&mut self) -> Result<(), AllocError>
        ensures { OnOk result (self.new.lines.items ≡ self.old.lines.items ++ ok_line) }
    {
        self.push_text(b"ok\n")
    }

    pub(crate) fn push_none(&mut self) -> Result<(), AllocError>
        ensures { OnOk result (self.new.lines.items ≡ self.old.lines.items ++ none_line) }
    {
        self.push_text(b"none\n")
    }

    pub(crate) fn push_bytes(&mut self, bytes: &[u8]) -> Result<(), AllocError>
        ensures { OnOk result (self.new.lines.items ≡ self.old.lines.items ++ bytes_line bytes.now) }
    {
        self.lines.extend_from_slice(b"ok ")?;
        push_quoted(&mut self.lines, bytes)?;
        self.lines.push(b'\n')?;
        Ok(())
    }

    pub(crate) fn push_unknown(&mut self, number: usize) -> Result<(), AllocError>
        ensures { OnOk result (self.new.lines.items ≡ self.old.lines.items ++ unknown_line number) }
    {
        let line = format!(in *self.lines.allocator(); "unknown {number}\n")?;
        self.push_text(line.as_bytes())
    }

    pub(crate) fn push_fault(&mut self, fault: FaultReport) -> Result<(), AllocError>
        ensures { OnOk result (self.new.lines.items ≡ self.old.lines.items ++ fault_line fault) }
    {
        let line = format!(in *self.lines.allocator(); "{fault}\n")?;
        self.push_text(line.as_bytes())
    }

    // The answer of a call that gives nothing.
    pub(crate) fn push_done<F: Fault + Drop>(
        &mut self,
        answer: Result<(), F>,
    ) -> Result<(), AllocError>
        ensures { OnOk result (self.new.lines.items ≡ self.old.lines.items ++ done_line F.Fault.told answer) }
    {
        match answer {
            Ok(()) => self.push_ok(),
            Err(fault) => self.push_fault(fault.report()),
        }
    }

    // The answer of a call that gives bytes at the front of a buffer, or none.
    pub(crate) fn push_found<F: Fault + Drop>(
        &mut self,
        buffer: &[u8],
        answer: Result<Option<usize>, F>,
    ) -> Result<(), AllocError>
        ensures { OnOk result (self.new.lines.items ≡ self.old.lines.items ++ found_line F.Fault.told buffer.now answer) }
    {
        match answer {
            Ok(Some(n)) => self.push_bytes(&buffer[..n.min(buffer.len())]),
            Ok(None) => self.push_none(),
            Err(fault) => self.push_fault(fault.report()),
        }
    }
}
