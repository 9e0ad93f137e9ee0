// The class list of an archive: from what was found in its folders to its nodes in path order.
ghost use Rattle.std.specs.Prelude.{◌≡◌, ◌++◌, map, IfOk, Some, refl};
ghost use Rattle.text.specs.Bytes.{same, byte_order};
ghost use Rattle.paths.specs.Paths.{path_order, same_path};
ghost use Rattle.paths.specs.Values.{names_of};
ghost use Rattle.classes.specs.declared.listing.Reason.TheVariants.{Refused};
ghost use Rattle.classes.specs.Classes.{entry, told, look, answer, judged, seen, has_reserved, allowed, granted_of, passed_of, last_path, is_last, kept, repeats, repeated, Listed};
ghost use Rattle.std.specs.Cmp.{on_equiv, on_total, partial_equiv_from_equiv, partial_order_from_agreeing_total};
ghost use Rattle.text.proofs.TotalOrders.{byte_order_total, same_equivalence, same_ties};
ghost use Rattle.paths.specs.TotalOrders.{path_order_total, same_path_equivalence, same_path_ties};

use crate::found::{Found, Kind, Sight};
use paths::{NodePath, PathFault, is_reserved};
use std::alloc::{AllocError, Global};
use std::cmp::Ordering;

// A node of the archive; its class number is its index in the list.
#[derive(Clone, Copy)]
pub struct Node {
    pub path: NodePath,
    pub kind: Kind,
}

// Why something that was found is no node.
#[derive(Clone, Copy)]
pub enum Reason {
    // a name of its path begins with `__`
    Reserved,
    Refused(PathFault),
    // a folder with none of the three metadata files
    Unmarked,
    Link,
    Unnamed,
    // an earlier one has the same path
    Repeated,
}

impl From<PathFault> for Reason {
    ghost from_gives = { λ x y. y ≡ Refused x };

    fn from(fault: PathFault) -> Reason {
        Reason::Refused(fault)
    }
}

#[derive(Drop)]
pub struct Passed {
    pub path: Vec<u8>,
    pub reason: Reason,
}

#[derive(Drop)]
pub struct ClassList {
    pub nodes: Vec<Node>,
    pub passed: Vec<Passed>,
}

// Kept: a derive would compare the kind too.
impl PartialEq for Node {
    ghost eq = { λ a b. same_path (names_of a.path) (names_of b.path) };

    ghost laws = { partial_equiv_from_equiv (on_equiv (λ n. names_of n.path) same_path_equivalence) };

    fn eq(&self, other: &Node) -> bool {
        self.cmp(other).is_eq()
    }
}

impl Eq for Node {
    ghost laws = { on_equiv (λ n. names_of n.path) same_path_equivalence };
}

impl PartialOrd for Node {
    ghost partial_cmp = { λ a b. Some (path_order (names_of a.path) (names_of b.path)) };

    ghost laws = { partial_order_from_agreeing_total (λ a b. path_order (names_of a.path) (names_of b.path)) (on_total (λ n. names_of n.path) path_order_total) (λ _ _. refl) (λ a b. same_path_ties (names_of a.path) (names_of b.path)) };

    fn partial_cmp(&self, other: &Node) -> Option<Ordering> {
        Some(self.cmp(other))
    }
}

// By path alone, in path order.
impl Ord for Node {
    ghost cmp = { λ a b. path_order (names_of a.path) (names_of b.path) };

    ghost total = { on_total (λ n. names_of n.path) path_order_total };

    ghost matches_partial_cmp = { λ _ _. refl };

    ghost matches_eq = { λ a b. same_path_ties (names_of a.path) (names_of b.path) };

    fn cmp(&self, other: &Node) -> Ordering {
        self.path.cmp(&other.path)
    }
}

// Kept: a derive would compare the reason too.
impl PartialEq for Passed {
    ghost eq = { λ a b. same a.path.items b.path.items };

    ghost laws = { partial_equiv_from_equiv (on_equiv (λ p. p.path.items) same_equivalence) };

    fn eq(&self, other: &Passed) -> bool {
        self.cmp(other).is_eq()
    }
}

impl Eq for Passed {
    ghost laws = { on_equiv (λ p. p.path.items) same_equivalence };
}

impl PartialOrd for Passed {
    ghost partial_cmp = { λ a b. Some (byte_order a.path.items b.path.items) };

    ghost laws = { partial_order_from_agreeing_total (λ a b. byte_order a.path.items b.path.items) (on_total (λ p. p.path.items) byte_order_total) (λ _ _. refl) (λ a b. same_ties a.path.items b.path.items) };

    fn partial_cmp(&self, other: &Passed) -> Option<Ordering> {
        Some(self.cmp(other))
    }
}

// By the bytes of the path: one that is refused has no place in path order.
impl Ord for Passed {
    ghost cmp = { λ a b. byte_order a.path.items b.path.items };

    ghost total = { on_total (λ p. p.path.items) byte_order_total };

    ghost matches_partial_cmp = { λ _ _. refl };

    ghost matches_eq = { λ a b. same_ties a.path.items b.path.items };

    fn cmp(&self, other: &Passed) -> Ordering {
        text::compare(self.path.as_slice(), other.path.as_slice())
    }
}

// Lists what was found: the nodes in path order, each path once, and what was passed over, by the bytes of the paths.
pub fn class_list(heap: Global, found: &[Found]) -> Result<ClassList, AllocError>
    ensures { IfOk result (λ l. Listed (map look found.now) (map entry l.nodes.items) (map told l.passed.items)) }
{
    let ClassList { mut nodes, passed } = sift(heap, found)?;
    nodes.sort_by(|a, b| a.path.cmp(&b.path))?;
    let ClassList { nodes, mut passed } = settle(heap, nodes.as_slice(), passed)?;
    // one that is refused has no place in path order
    passed.sort_by(|a, b| a.path.cmp(&b.path))?;
    Ok(ClassList { nodes, passed })
}

// Whether what was seen at a path is a node, or why not.
pub fn judge(path: &[u8], sight: Sight) -> Result<Node, Reason>
    ensures { answer result ≡ judged path.now sight }
{
    if has_reserved(path) {
        return Err(Reason::Reserved);
    }
    let path = NodePath::new(path)?;
    judge_sight(path, sight)
}

// Whether a node could have the path, so that it is worth looking there.
pub fn is_allowed(path: &[u8]) -> bool
    ensures { result ≡ allowed path.now }
{
    !has_reserved(path) && NodePath::new(path).is_ok()
}

fn judge_sight(path: NodePath, sight: Sight) -> Result<Node, Reason>
    ensures { answer result ≡ seen (names_of path) sight }
{
    match sight {
        Sight::Folder(marks) => {
            let kind = marks.kind().ok_or(Reason::Unmarked)?;
            Ok(Node { path, kind })
        }
        Sight::Link => Err(Reason::Link),
        Sight::Unnamed => Err(Reason::Unnamed),
    }
}

// Whether a name of the path's text begins with `__`.
fn has_reserved(path: &[u8]) -> bool
    ensures { result ≡ has_reserved path.now }
{
    path.split(|b| *b == b'/')
        .skip(1)
        .any(|name| is_reserved(name))
}

// The nodes, and what is passed over, each in the order in which it was found.
fn sift(heap: Global, found: &[Found]) -> Result<ClassList, AllocError>
    ensures nodes { IfOk result (λ l. map entry l.nodes.items ≡ granted_of (map look found.now)) }
    ensures passed { IfOk result (λ l. map told l.passed.items ≡ passed_of (map look found.now)) }
{
    let mut nodes = Vec::new(heap);
    let mut passed = Vec::new(heap);
    for one in found {
        match judge(one.path.as_slice(), one.sight) {
            Ok(node) => nodes.push(node)?,
            Err(reason) => {
                let path = Vec::from_slice(heap, one.path.as_slice())?;
                passed.push(Passed { path, reason })?;
            }
        }
    }
    Ok(ClassList { nodes, passed })
}

// The nodes with each path once; the others that have it are passed over too.
fn settle(heap: Global, sorted: &[Node], mut passed: Vec<Passed>) -> Result<ClassList, AllocError>
    ensures nodes { IfOk result (λ l. map entry l.nodes.items ≡ kept (map entry sorted.now)) }
    ensures passed { IfOk result (λ l. map told l.passed.items ≡ map told passed.items ++ map repeated (repeats (map entry sorted.now))) }
{
    let mut nodes = Vec::new(heap);
    for node in sorted {
        if is_last(nodes.as_slice(), node) {
            let path = Vec::from_slice(heap, node.path.as_bytes())?;
            passed.push(Passed {
                path,
                reason: Reason::Repeated,
            })?;
        } else {
            nodes.push(*node)?;
        }
    }
    Ok(ClassList { nodes, passed })
}

// Whether the last of the nodes has the path of this one.
fn is_last(nodes: &[Node], node: &Node) -> bool
    ensures { result ≡ is_last (last_path (map entry nodes.now)) (names_of node.now.path) }
{
    nodes.last().is_some_and(|last| last.path == node.path)
}
