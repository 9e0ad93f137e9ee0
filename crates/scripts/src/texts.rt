// Calls on names, paths and keys, which need no store.
use crate::answers::Answers;
use keys::{MetadataFile, StoreKey};
use paths::{NodeName, NodePath};
use std::alloc::AllocError;
use std::cmp::Ordering;
use text::FaultReport;

// What such a call gives.
#[derive(Clone, Copy)]
pub(crate) enum Given {
    Done,
    Path(NodePath),
    // the root has none
    Parent(Option<NodePath>),
    Key(StoreKey),
    Order(Ordering),
}

pub(crate) fn push_given(
    answers: &mut Answers,
    given: Result<Given, FaultReport>,
) -> Result<(), AllocError> {
    match given {
        Ok(Given::Done) => answers.push_ok(),
        Ok(Given::Parent(None)) => answers.push_none(),
        Ok(Given::Path(path) | Given::Parent(Some(path))) => answers.push_bytes(path.as_bytes()),
        Ok(Given::Key(key)) => answers.push_bytes(key.as_bytes()),
        Ok(Given::Order(order)) => answers.push_text(order_line(order)),
        Err(fault) => answers.push_fault(fault),
    }
}

fn order_line(order: Ordering) -> &'static [u8] {
    match order {
        Ordering::Less => b"less\n",
        Ordering::Equal => b"equal\n",
        Ordering::Greater => b"greater\n",
    }
}

pub(crate) fn name(text: &[u8]) -> Result<Given, FaultReport> {
    NodeName::new(text)?;
    Ok(Given::Done)
}

pub(crate) fn path(text: &[u8]) -> Result<Given, FaultReport> {
    Ok(Given::Path(NodePath::new(text)?))
}

pub(crate) fn parent(text: &[u8]) -> Result<Given, FaultReport> {
    let path = NodePath::new(text)?;
    Ok(Given::Parent(path.parent()))
}

pub(crate) fn join(base: &[u8], relative: &[u8]) -> Result<Given, FaultReport> {
    let base = NodePath::new(base)?;
    Ok(Given::Path(base.join(relative)?))
}

pub(crate) fn compare(one: &[u8], two: &[u8]) -> Result<Given, FaultReport> {
    let one = NodePath::new(one)?;
    let two = NodePath::new(two)?;
    Ok(Given::Order(one.cmp(&two)))
}

pub(crate) fn key(file: MetadataFile, path: &[u8]) -> Result<Given, FaultReport> {
    let path = NodePath::new(path)?;
    Ok(Given::Key(keys::meta_key(&path, file)))
}

pub(crate) fn data_key(path: &[u8], chunk: &[u8]) -> Result<Given, FaultReport> {
    let path = NodePath::new(path)?;
    Ok(Given::Key(keys::data_key(&path, chunk)?))
}
