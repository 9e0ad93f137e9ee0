// A script, line by line.
ghost use Rattle.std.specs.Prelude.{IfOk};
ghost use Rattle.scripts.specs.Lines.{FewerLeft};

use crate::line::Lines;
use crate::pile::Pile;
use crate::session::Session;
use crate::texts;
use images::Image;
use lines::call::{Call, FULL_BYTES, FULL_SLOTS};
use shelves::{Shelf, Slot};
use std::alloc::{AllocError, Global};
use stores::WriteStore;
use text::Fault;

// What a pile lies on: a shelf of so many slots and bytes, or an image.
#[derive(Drop)]
enum Base {
    Shelf(usize, usize),
    Image(Vec<u8>),
}

// A script that is run: what is left of it, and the answers so far.
#[derive(Drop)]
struct Run<'a> {
    script: &'a [u8],
    lines: Lines<'a>,
    session: Session,
}

// The answers to a script's calls, in a line each or more. At the start there is an empty shelf of full size, mounted at `/`, with all rows lowered.
pub fn report(heap: Global, script: &[u8]) -> Result<Vec<u8>, AllocError> {
    let mut run = Run {
        script,
        lines: Lines::new(script),
        session: Session::new(heap, script.len().max(FULL_BYTES))?,
    };
    let mut base = Base::Shelf(FULL_SLOTS, FULL_BYTES);
    while let Some(other) = run.on_base(base)? {
        base = other;
    }
    Ok(run.session.answers.into_bytes())
}

impl Run<'_> {
    // The lines up to one that asks for another base, or to the last.
    fn on_base(&mut self, base: Base) -> Result<Option<Base>, AllocError>
        ensures { IfOk result (λ other. FewerLeft other self.old.lines.rest.now self.new.lines.rest.now) }
    {
        match base {
            Base::Shelf(slots, bytes) => self.on_shelf(slots, bytes),
            Base::Image(bytes) => self.on_store(&mut Image::new(bytes.as_slice())),
        }
    }

    // No script sets more pairs than it has bytes, nor longer values, so more slots and bytes than that change no answer.
    fn on_shelf(&mut self, slots: usize, bytes: usize) -> Result<Option<Base>, AllocError>
        ensures { IfOk result (λ other. FewerLeft other self.old.lines.rest.now self.new.lines.rest.now) }
    {
        let heap = self.session.heap;
        let slots = slots.min(self.script.len().max(FULL_SLOTS));
        let bytes = bytes.min(self.script.len().max(FULL_BYTES));
        let mut slots = vec![in heap; Slot::empty(); slots]?;
        let mut bytes = vec![in heap; 0u8; bytes]?;
        let mut shelf = Shelf::new(slots.as_mut_slice(), bytes.as_mut_slice());
        self.on_store(&mut shelf)
    }

    fn on_store<S: WriteStore>(&mut self, store: &mut S) -> Result<Option<Base>, AllocError>
        ensures { IfOk result (λ other. FewerLeft other self.old.lines.rest.now self.new.lines.rest.now) }
    {
        let mut pile = Pile::new();
        while let Some((number, line)) = self.lines.next_line() {
            let other = self.session.answer(store, &mut pile, number, line)?;
            if other.is_some() {
                return Ok(other);
            }
        }
        Ok(None)
    }
}

impl Session {
    // Answers one line; a line that asks for another base answers with it.
    fn answer<S: WriteStore>(
        &mut self,
        store: &mut S,
        pile: &mut Pile,
        number: usize,
        line: &[u8],
    ) -> Result<Option<Base>, AllocError> {
        if line.starts_with(b"%") {
            return Ok(None);
        }
        let words = lines::words(self.heap, line)?;
        let Some(call) = lines::parse(words.as_slice()) else {
            self.answers.push_unknown(number)?;
            return Ok(None);
        };
        // Kept: each layer answers its own calls and passes the rest on; in a nested enum each call would be named twice, by its layer and by itself.
        match call {
            Call::Shelf(slots, bytes) => {
                self.answers.push_ok()?;
                Ok(Some(Base::Shelf(slots, bytes)))
            }
            Call::Image(bytes) => {
                let bytes = bytes.bytes(self.heap)?;
                self.image(bytes)
            }
            _ => {
                self.perform(store, pile, call)?;
                Ok(None)
            }
        }
    }

    // An image of the bytes, if they are one.
    fn image(&mut self, bytes: Vec<u8>) -> Result<Option<Base>, AllocError> {
        match images::check(bytes.as_slice()) {
            Ok(_) => {
                self.answers.push_ok()?;
                Ok(Some(Base::Image(bytes)))
            }
            Err(fault) => {
                self.answers.push_fault(fault.report())?;
                Ok(None)
            }
        }
    }

    // A call that leaves the base in its place.
    fn perform<S: WriteStore>(
        &mut self,
        store: &mut S,
        pile: &mut Pile,
        call: Call<'_>,
    ) -> Result<(), AllocError> {
        let heap = self.heap;
        let given = match call {
            Call::Name(text) => texts::name(text.bytes(heap)?.as_slice()),
            Call::Path(text) => texts::path(text.bytes(heap)?.as_slice()),
            Call::Parent(text) => texts::parent(text.bytes(heap)?.as_slice()),
            Call::Join(base, relative) => texts::join(
                base.bytes(heap)?.as_slice(),
                relative.bytes(heap)?.as_slice(),
            ),
            Call::Compare(one, two) => texts::compare(
                one.bytes(heap)?.as_slice(),
                two.bytes(heap)?.as_slice(),
            ),
            Call::Key(file, path) => texts::key(file, path.bytes(heap)?.as_slice()),
            Call::DataKey(path, chunk) => texts::data_key(
                path.bytes(heap)?.as_slice(),
                chunk.bytes(heap)?.as_slice(),
            ),
            _ => return pile.perform(self, store, call),
        };
        texts::push_given(&mut self.answers, given)
    }
}
