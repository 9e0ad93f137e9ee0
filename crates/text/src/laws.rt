// What the definitions amount to: each function stands for the law that its contract states.
ghost use Rattle.text.specs.Laws.{ByteOrderIsTotal, TestIsTable, TestIsLibrary};

// The order by bytes is a strict total order.
pub fn byte_order_is_total()
    ensures { ByteOrderIsTotal }
{}

// The test for text grants the table's sequences, one after the other.
pub fn test_is_table()
    ensures { TestIsTable }
{}

// It grants what the language's library calls UTF-8.
pub fn test_is_library()
    ensures { TestIsLibrary }
{}
