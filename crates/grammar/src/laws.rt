// What the grammar amounts to: each function stands for the laws that its contract states.
ghost use Rattle.grammar.specs.Laws.{TextOrLongest, ParseSays, ParseReads, OneTree, ObjectsEnd, CompactShows, CompactReads, CompactStays, CompactDrops, TextsAreUtf8};

// Any bytes are a permitted text, or have a longest start that some permitted text continues: with one byte more, none does. The automaton says which, and where.
pub fn text_or_longest_start()
    ensures stands { TextOrLongest }
    ensures told { ParseSays }
{}

// Each permitted text is read, as the tree that it is a text of.
pub fn texts_are_read()
    ensures { ParseReads }
{}

// A text has at most one tree.
pub fn one_tree()
    ensures { OneTree }
{}

// An object's text followed by anything is read as that object and the rest.
pub fn objects_end_by_themselves()
    ensures { ObjectsEnd }
{}

// The compact text of a tree is a text of it, is read back as that tree, and is its own compact text.
pub fn compact_text_stays()
    ensures shows { CompactShows }
    ensures reads { CompactReads }
    ensures stays { CompactStays }
{}

// The compact text is the text without the white space outside its strings.
pub fn compact_text_drops_white_space()
    ensures { CompactDrops }
{}

// A permitted text is UTF-8 as a whole.
pub fn texts_are_utf8()
    ensures { TextsAreUtf8 }
{}
