// What the definitions of paths amount to. Each function's contract is a theorem, and its proof is asked for by that.
ghost use Rattle.paths.specs.Memory.{SameNamesSameMemory};
ghost use Rattle.paths.specs.Laws.{ReadsWhatIsSpelled, SplittingUndoesWriting, JoinUndoesRelative, JoinReadsOneText, ParentUndoesJoin, PathOrderIsTotal, TextsCompareAsPaths};

// A text is read as the path that it spells, and refused as invalid or over the limits exactly where it spells none or none within them.
pub fn reads_what_is_spelled()
    ensures { ReadsWhatIsSpelled }
{}

// Splitting a text at its `/`s and writing names with `/` between them undo each other.
pub fn splitting_undoes_writing()
    ensures { SplittingUndoesWriting }
{}

// Joining a base and the text of a path relative to it gives the path.
pub fn join_undoes_relative()
    ensures { JoinUndoesRelative }
{}

// Joining a text is reading the base, `/` and that text as one.
pub fn join_reads_one_text()
    ensures { JoinReadsOneText }
{}

// The parent of a base joined with one name is the base.
pub fn parent_undoes_join()
    ensures { ParentUndoesJoin }
{}

// Path order is a strict total order.
pub fn path_order_is_total()
    ensures { PathOrderIsTotal }
{}

// Comparing texts with `/` before every other byte is comparing paths name by name.
pub fn texts_compare_as_paths()
    ensures { TextsCompareAsPaths }
{}

// Two path values with the same names are the same in memory.
pub fn same_names_same_memory()
    ensures { SameNamesSameMemory }
{}
