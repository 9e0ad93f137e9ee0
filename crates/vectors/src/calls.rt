// The calls that vectors name, and their answers as text.
use keys::{MetadataFile, StoreKey, StorePrefix};
use paths::{NodeName, NodePath, PathRow};
use std::alloc::{AllocError, Global};
use std::cmp::Ordering;
use std::str;
use text::FaultReport;

// What a call gives.
// Kept: seven calls are like those of scripts, whose answers are other lines; six are one to three lines, the seventh reads its file by another rule, and a crate for them would be longer.
#[derive(Clone, Copy)]
pub(crate) enum Given {
    Test(bool),
    Done,
    Path(NodePath),
    // the root has none
    Parent(Option<NodePath>),
    // the last name of a path
    Name(NodePath),
    Depth(usize),
    Key(StoreKey),
    Prefix(StorePrefix),
    Order(Ordering),
}

// What the words of a call give, why they are refused, or none for a call that is not known.
pub(crate) fn answer(words: &[Vec<u8>]) -> Option<Result<Given, FaultReport>> {
    let (call, rest) = words.split_first()?;
    let call = str::from_utf8(call.as_slice()).ok()?;
    match rest {
        [a] => one(call, a.as_slice()),
        [a, b] => two(call, a.as_slice(), b.as_slice()),
        _ => None,
    }
}

// What an answer says.
pub(crate) fn spelled(
    heap: Global,
    answer: Option<Result<Given, FaultReport>>,
) -> Result<Vec<u8>, AllocError> {
    let Some(given) = answer else {
        return said(heap, "unknown");
    };
    match given {
        Ok(Given::Test(true)) => said(heap, "yes"),
        Ok(Given::Test(false)) => said(heap, "no"),
        Ok(Given::Done) => said(heap, "ok"),
        Ok(Given::Parent(None)) => said(heap, "none"),
        Ok(Given::Path(path) | Given::Parent(Some(path))) => granted(heap, path.as_bytes()),
        Ok(Given::Name(path)) => granted(heap, path.name()),
        Ok(Given::Depth(depth)) => Ok(format!(in heap; "{depth}")?.into_bytes()),
        Ok(Given::Key(key)) => granted(heap, key.as_bytes()),
        Ok(Given::Prefix(prefix)) => granted(heap, prefix.as_bytes()),
        Ok(Given::Order(Ordering::Less)) => said(heap, "less"),
        Ok(Given::Order(Ordering::Equal)) => said(heap, "equal"),
        Ok(Given::Order(Ordering::Greater)) => said(heap, "greater"),
        Err(fault) => Ok(format!(in heap; "{fault}")?.into_bytes()),
    }
}

fn said(heap: Global, word: &str) -> Result<Vec<u8>, AllocError> {
    Vec::from_slice(heap, word.as_bytes())
}

fn granted(heap: Global, bytes: &[u8]) -> Result<Vec<u8>, AllocError> {
    let mut out = said(heap, "ok ")?;
    out.extend_from_slice(bytes)?;
    Ok(out)
}

fn one(call: &str, a: &[u8]) -> Option<Result<Given, FaultReport>> {
    match call {
        "text" => Some(Ok(Given::Test(text::is_text(a)))),
        "name" => Some(name(a)),
        "path" => Some(path(a)),
        "row" => Some(row(a)),
        "parent" => Some(parent(a)),
        "last-name" => Some(last_name(a)),
        "depth" => Some(depth(a)),
        "is-key" => Some(Ok(Given::Test(keys::is_key(a)))),
        "is-prefix" => Some(Ok(Given::Test(keys::is_prefix(a)))),
        "prefix" => Some(prefix(a)),
        "from-prefix" => Some(from_prefix(a)),
        _ => None,
    }
}

fn two(call: &str, a: &[u8], b: &[u8]) -> Option<Result<Given, FaultReport>> {
    match call {
        "join" => Some(join(a, b)),
        "compare" => Some(compare(a, b)),
        "key" => Some(meta_key(a, b)),
        "data-key" => Some(data_key(a, b)),
        _ => None,
    }
}

fn name(text: &[u8]) -> Result<Given, FaultReport> {
    NodeName::new(text)?;
    Ok(Given::Done)
}

fn path(text: &[u8]) -> Result<Given, FaultReport> {
    Ok(Given::Path(NodePath::new(text)?))
}

fn last_name(path: &[u8]) -> Result<Given, FaultReport> {
    Ok(Given::Name(NodePath::new(path)?))
}

fn row(path: &[u8]) -> Result<Given, FaultReport> {
    let path = NodePath::new(path)?;
    let row = PathRow::from(&path);
    Ok(Given::Path(NodePath::try_from(&row)?))
}

fn parent(path: &[u8]) -> Result<Given, FaultReport> {
    let path = NodePath::new(path)?;
    Ok(Given::Parent(path.parent()))
}

fn depth(path: &[u8]) -> Result<Given, FaultReport> {
    let path = NodePath::new(path)?;
    Ok(Given::Depth(path.depth()))
}

fn prefix(path: &[u8]) -> Result<Given, FaultReport> {
    let path = NodePath::new(path)?;
    Ok(Given::Prefix(keys::prefix_of(&path)))
}

fn from_prefix(prefix: &[u8]) -> Result<Given, FaultReport> {
    let prefix = StorePrefix::new(prefix)?;
    Ok(Given::Path(keys::path_of_prefix(&prefix)?))
}

fn join(base: &[u8], relative: &[u8]) -> Result<Given, FaultReport> {
    let base = NodePath::new(base)?;
    Ok(Given::Path(base.join(relative)?))
}

fn compare(one: &[u8], two: &[u8]) -> Result<Given, FaultReport> {
    let one = NodePath::new(one)?;
    let two = NodePath::new(two)?;
    Ok(Given::Order(one.cmp(&two)))
}

// Kept: the words of a script for the four files, but that a vector's last one may be any word.
fn meta_key(file: &[u8], path: &[u8]) -> Result<Given, FaultReport> {
    let path = NodePath::new(path)?;
    let file = match file {
        b"v3" => MetadataFile::ZarrJson,
        b"array" => MetadataFile::Zarray,
        b"group" => MetadataFile::Zgroup,
        _ => MetadataFile::Zattrs,
    };
    Ok(Given::Key(keys::meta_key(&path, file)))
}

fn data_key(path: &[u8], chunk: &[u8]) -> Result<Given, FaultReport> {
    let path = NodePath::new(path)?;
    Ok(Given::Key(keys::data_key(&path, chunk)?))
}
