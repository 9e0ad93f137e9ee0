// A place in a document, and a guard that puts it back.
ghost use Rattle.std.specs.Prelude.{◌≡◌};

// How far a reader has come, and how deep values may nest there.
#[derive(Clone, Copy)]
pub struct Cursor {
    pub offset: usize,
    pub depth: u8,
}

// A cursor on loan, with what it is to be again.
pub(crate) struct Restore<'a> {
    pub(crate) cursor: &'a mut Cursor,
    pub(crate) saved: Cursor,
}

impl Drop for Restore<'_> {
    fn drop(self)
        ensures { self.exit.0.now ≡ self.entry.saved }
    {
        *self.cursor = self.saved;
        let Restore {
            cursor: _,
            saved: _,
        } = self;
    }
}
