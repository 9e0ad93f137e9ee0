// What spelling amounts to: each function stands for the law that its contract states.
ghost use Rattle.images.specs.Examples.{ExamplesHold};
ghost use Rattle.images.specs.Laws.{OneSpelling, TestIsSpelling};

// Bytes spell at most one list of pairs.
pub fn one_spelling()
    ensures { OneSpelling }
{}

// The test grants exactly the bytes that spell pairs.
pub fn test_is_spelling()
    ensures { TestIsSpelling }
{}

// A few images, written out.
pub fn examples_hold()
    ensures { ExamplesHold }
{}
