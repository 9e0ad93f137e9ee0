// The report on an archive, as it is printed.
ghost use Rattle.std.specs.Prelude.{◌≡◌, max, ◌++◌, map, length, IfOk, decimal, OnOk};
ghost use Rattle.classes.specs.Classes.{entry, told};
ghost use Rattle.console.specs.Reports.{node_line, nodes_text, node_lines, passed_line, passed_text, totals, report_text};

use crate::explain::Sentence;
use classes::listing::{ClassList, Node, Passed};
use printing::push_shown;
use std::alloc::{AllocError, Global};

// Kept: the parts of a report share its text, and those of the list its width; a method's receiver would say no more than `out`.
// The numbered list of the nodes, what was passed over and why, and the totals.
pub fn report(heap: Global, archive: &str, list: &ClassList) -> Result<Vec<u8>, AllocError>
    ensures { IfOk result (λ v. v.items ≡ report_text archive.now (map entry list.now.nodes.items) (map told list.now.passed.items)) }
{
    let mut out = Vec::new(heap);
    out.extend_from_slice(b"Classes of ")?;
    push_shown(&mut out, archive.as_bytes())?;
    out.extend_from_slice(b"\n\n")?;
    push_nodes(&mut out, list.nodes.as_slice())?;
    out.extend_from_slice(b"\nPassed over:\n")?;
    push_passed(&mut out, list.passed.as_slice())?;
    push_totals(&mut out, list.nodes.len(), list.passed.len())?;
    Ok(out)
}

fn push_nodes(out: &mut Vec<u8>, nodes: &[Node]) -> Result<(), AllocError>
    ensures { OnOk result (out.new.items ≡ out.old.items ++ nodes_text (map entry nodes.now)) }
{
    let heap = *out.allocator();
    let width = number_width(heap, nodes.len())?;
    let head = format!(in heap; "{:>width$}  Kind      Path\n", "No.")?;
    out.extend_from_slice(head.as_bytes())?;
    push_node_lines(out, width, nodes)
}

// The width of the column of numbers, whose head is three wide.
fn number_width(heap: Global, count: usize) -> Result<usize, AllocError>
    ensures { IfOk result (λ w. w ≡ max (length (decimal count)) 3) }
{
    let digits = format!(in heap; "{count}")?;
    Ok(digits.len().max(3))
}

fn push_node_lines(out: &mut Vec<u8>, width: usize, nodes: &[Node]) -> Result<(), AllocError>
    ensures { OnOk result (out.new.items ≡ out.old.items ++ node_lines width 0 (map entry nodes.now)) }
{
    for (number, node) in nodes.iter().enumerate() {
        push_node(out, width, number, node)?;
    }
    Ok(())
}

fn push_node(out: &mut Vec<u8>, width: usize, number: usize, node: &Node) -> Result<(), AllocError>
    ensures { OnOk result (out.new.items ≡ out.old.items ++ node_line width number (entry node.now)) }
{
    let kind = node.kind.name();
    let columns = format!(in *out.allocator(); "{number:>width$}  {kind:<10}")?;
    out.extend_from_slice(columns.as_bytes())?;
    push_shown(out, node.path.as_bytes())?;
    out.push(b'\n')?;
    Ok(())
}

fn push_passed(out: &mut Vec<u8>, passed: &[Passed]) -> Result<(), AllocError>
    ensures { OnOk result (out.new.items ≡ out.old.items ++ passed_text (map told passed.now)) }
{
    if passed.is_empty() {
        return out.extend_from_slice(b"  nothing\n");
    }
    for one in passed {
        push_passed_line(out, one)?;
    }
    Ok(())
}

fn push_passed_line(out: &mut Vec<u8>, one: &Passed) -> Result<(), AllocError>
    ensures { OnOk result (out.new.items ≡ out.old.items ++ passed_line (told one.now)) }
{
    out.extend_from_slice(b"  ")?;
    push_shown(out, one.path.as_slice())?;
    let why = format!(in *out.allocator(); ": {}\n", Sentence(one.reason))?;
    out.extend_from_slice(why.as_bytes())
}

fn push_totals(out: &mut Vec<u8>, nodes: usize, passed: usize) -> Result<(), AllocError>
    ensures { OnOk result (out.new.items ≡ out.old.items ++ totals nodes passed) }
{
    let text = format!(in *out.allocator(); "\nNodes: {nodes}\nPassed over: {passed}\n")?;
    out.extend_from_slice(text.as_bytes())
}
