// The pile that calls work on: an outer fence, over a mount, over an inner fence, over a base.
use crate::session::Session;
use fences::{Fence, Rows};
use keys::{StorePrefix, prefix_of};
use lines::call::{Call, Side};
use mounts::{Mount, room_at};
use paths::{NodePath, PathFault};
use std::alloc::AllocError;
use stores::{ReadStore, WriteStore};
use text::Fault;

// What lies on the base: where it is mounted, and the rows of both fences.
#[derive(Clone, Copy)]
pub(crate) struct Pile {
    front: StorePrefix,
    outer: Rows,
    inner: Rows,
}

impl Pile {
    // Mounted at `/`, with all rows lowered.
    pub(crate) fn new() -> Pile {
        Pile {
            front: prefix_of(&NodePath::root()),
            outer: Rows::new(),
            inner: Rows::new(),
        }
    }

    // The call, performed on the base under this pile and answered; a call on no store is left alone.
    pub(crate) fn perform<S: WriteStore>(
        &mut self,
        session: &mut Session,
        base: &mut S,
        call: Call<'_>,
    ) -> Result<(), AllocError> {
        match call {
            Call::Mount(path) => {
                let path = path.bytes(session.heap)?;
                match front_at(base, path.as_slice()) {
                    Ok(front) => {
                        self.front = front;
                        session.answers.push_ok()
                    }
                    Err(fault) => session.answers.push_fault(fault.report()),
                }
            }
            Call::Raise(side, row, prefix) => {
                let prefix = prefix.bytes(session.heap)?;
                let answer = self.rows(side).raise(row, prefix.as_slice());
                session.answers.push_done(answer)
            }
            Call::Lower(side, row) => {
                let answer = self.rows(side).lower(row);
                session.answers.push_done(answer)
            }
            _ => self.perform_through(session, base, call),
        }
    }

    fn rows(&mut self, side: Side) -> &mut Rows {
        match side {
            Side::Outer => &mut self.outer,
            Side::Inner => &mut self.inner,
        }
    }

    // The call, performed through the three layers.
    // Kept: as a `Work` of piles it would need a struct and promises of its own for these three lines; the store is of another type in each layer, so it is no field either.
    fn perform_through<S: WriteStore>(
        &self,
        session: &mut Session,
        base: &mut S,
        call: Call<'_>,
    ) -> Result<(), AllocError> {
        let mut low = Fence::new(base, &self.inner);
        let mut middle = Mount::new(&mut low, &self.front);
        let mut top = Fence::new(&mut middle, &self.outer);
        session.perform_on(&mut top, call)
    }
}

// The prefix that a mount of the store at a path has.
fn front_at<S: ReadStore>(store: &S, path: &[u8]) -> Result<StorePrefix, PathFault> {
    let path = NodePath::new(path)?;
    room_at(store, &path)
}
