// Why the program stops, in one sentence each.
use std::alloc::AllocError;
use std::io;
use thiserror::Error;

#[derive(Debug, Drop, Error)]
pub enum Failure {
    #[error("{0}; 'walqyndem help' says how it is used")]
    Usage(String),
    #[error("there is no folder '{0}'")]
    NoFolder(String),
    #[error("the folder '{0}' is no Zarr archive: it holds no zarr.json, .zarray or .zgroup")]
    NoNode(String),
    #[error("cannot read '{path}': {why}")]
    Unreadable { path: String, why: io::Error },
    #[error("cannot write the answer: {0}")]
    Output(#[from] io::Error),
    #[error("there is not enough memory")]
    Memory(#[from(alloc)] AllocError),
}
