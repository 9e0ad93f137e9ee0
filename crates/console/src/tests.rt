// What the commands say of a few small cases.
use crate::command;
use crate::report::report;
use classes::found::{Found, Marks, Sight};
use classes::listing::class_list;
use printing::push_shown;
use std::alloc::{AllocError, Global};
use std::test::Fail;

fn folder(heap: Global, path: &str, marked: bool) -> Result<Found, AllocError> {
    let marks = Marks {
        zarr_json: marked,
        zarray: false,
        zgroup: marked,
    };
    Ok(Found {
        path: String::from_str(heap, path)?.into_bytes(),
        sight: Sight::Folder(marks),
    })
}

// Path order goes name by name: by bytes alone `/pet-film` would stand before `/pet/tray`.
#[test]
fn lists_in_path_order(rt: HostRuntime) -> Result<(), Fail> {
    let heap = rt.alloc();
    let mut found = Vec::new(heap);
    found.push(folder(heap, "/pet-film", true)?)?;
    found.push(folder(heap, "/notes", false)?)?;
    found.push(folder(heap, "/pet/tray", true)?)?;
    found.push(folder(heap, "/pet", true)?)?;
    found.push(folder(heap, "/...", true)?)?;
    found.push(folder(heap, "/", true)?)?;
    let list = class_list(heap, found.as_slice())?;
    let text = report(heap, "plant", &list)?;
    let expected = b"Classes of plant

No.  Kind      Path
  0  v3 node   /
  1  v3 node   /pet
  2  v3 node   /pet/tray
  3  v3 node   /pet-film

Passed over:
  /...: fault 11 of the path layer, the name is not valid; rename it to text that is not made of periods only
  /notes: it holds no zarr.json, .zarray or .zgroup, so it is no node and nothing below it was read

Nodes: 4
Passed over: 2
";
    assert!(rt; text.as_slice() == &expected[..]);
    Ok(())
}

// More nodes, and more that is passed over, than a sort orders in place.
#[test]
fn lists_many(rt: HostRuntime) -> Result<(), Fail> {
    let heap = rt.alloc();
    let mut found = Vec::new(heap);
    for name in "z y x w v u t s r q p o n m l k j i h g f e d c b a".split(' ') {
        let path = format!(in heap; "/{name}")?;
        found.push(folder(heap, path.as_str(), true)?)?;
        let below = format!(in heap; "/{name}/0")?;
        found.push(folder(heap, below.as_str(), false)?)?;
    }
    let list = class_list(heap, found.as_slice())?;
    let mut nodes = Vec::new(heap);
    for node in &list.nodes {
        nodes.extend_from_slice(node.path.as_bytes())?;
    }
    let mut passed = Vec::new(heap);
    for one in &list.passed {
        passed.extend_from_slice(one.path.as_slice())?;
    }
    assert!(rt; nodes.as_slice() == &b"/a/b/c/d/e/f/g/h/i/j/k/l/m/n/o/p/q/r/s/t/u/v/w/x/y/z"[..]);
    let expected =
        b"/a/0/b/0/c/0/d/0/e/0/f/0/g/0/h/0/i/0/j/0/k/0/l/0/m/0/n/0/o/0/p/0/q/0/r/0/s/0/t/0/u/0/v/0/w/0/x/0/y/0/z/0";
    assert!(rt; passed.as_slice() == &expected[..]);
    Ok(())
}

#[test]
fn reports_an_empty_list(rt: HostRuntime) -> Result<(), Fail> {
    let heap = rt.alloc();
    let found = Vec::new(heap);
    let list = class_list(heap, found.as_slice())?;
    let text = report(heap, "none", &list)?;
    let expected =
        b"Classes of none\n\nNo.  Kind      Path\n\nPassed over:\n  nothing\n\nNodes: 0\nPassed over: 0\n";
    assert!(rt; text.as_slice() == &expected[..]);
    Ok(())
}

#[test]
fn keeps_a_line_a_line(rt: HostRuntime) -> Result<(), Fail> {
    let mut out = Vec::new(rt.alloc());
    push_shown(&mut out, b"/\xff\xc3\xa9\xc3\n\"\\")?;
    assert!(rt; out.as_slice() == &b"/\\xff\xc3\xa9\\xc3\\x0a\\\"\\\\"[..]);
    Ok(())
}

fn complaint(heap: Global, line: &str) -> Result<String, Fail> {
    let mut words = Vec::new(heap);
    for word in line.split_whitespace() {
        words.push(String::from_str(heap, word)?)?;
    }
    match command::parse(words.as_slice()) {
        Ok(_) => Ok(String::new(heap)),
        Err(fault) => Ok(format!(in heap; "{fault}")?),
    }
}

#[test]
fn says_what_is_wrong(rt: HostRuntime) -> Result<(), Fail> {
    let heap = rt.alloc();
    assert!(rt; complaint(heap, "")?.as_str() == "no command was given");
    assert!(rt; complaint(heap, "list")?.as_str() == "unknown command 'list'");
    assert!(rt; complaint(heap, "classes")?.as_str() == "classes needs an ARCHIVE");
    assert!(rt; complaint(heap, "help me")?.as_str() == "too many words: 'me' is not expected");
    assert!(rt; complaint(heap, "help")?.as_str() == "");
    assert!(rt; complaint(heap, "classes plant")?.as_str() == "");
    Ok(())
}
