// What the definitions of keys amount to, and a table of cases. Each function's contract is a theorem, and its proof is asked for by that.
ghost use Rattle.keys.specs.Examples.{Examples};
ghost use Rattle.keys.specs.Laws.{KeyAndPrefixForms, PathKeysAreKeys, KeysUnderPrefix, KeysDiffer};

// A key has no empty part, and a prefix is empty, or a key and `/`.
pub fn key_and_prefix_forms()
    ensures { KeyAndPrefixForms }
{}

// The metadata keys and the prefix of a valid path are a store's keys and prefixes, and a path is read back from its prefix.
pub fn path_keys_are_keys()
    ensures { PathKeysAreKeys }
{}

// A metadata key begins with a group's prefix exactly if its path is the group's or lies below it.
pub fn keys_under_prefix()
    ensures { KeysUnderPrefix }
{}

// Metadata keys of different paths or files differ.
pub fn keys_differ()
    ensures { KeysDiffer }
{}

// A table of cases.
pub fn examples_hold()
    ensures { Examples }
{}
