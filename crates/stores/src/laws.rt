// What the calls of every store amount to. Each function's contract is a theorem, and its proof is asked for by that.
ghost use Rattle.stores.specs.Laws.{SetThenGet, EraseThenGet, OtherKeysStay, EraseAbsent, WritesKeepLawful, EqualStoresAnswerAlike, LookUpsTellPairs, ViewsOfStores, ViewsJoin, ListingFindsAll};

// What was set is read back.
pub fn set_then_get()
    ensures { SetThenGet }
{}

// What was erased is gone.
pub fn erase_then_get()
    ensures { EraseThenGet }
{}

// Setting and erasing one key leave every other.
pub fn other_keys_stay()
    ensures { OtherKeysStay }
{}

// Erasing an absent key changes nothing.
pub fn erase_absent()
    ensures { EraseAbsent }
{}

// A lawful store is lawful after every call.
pub fn writes_keep_lawful()
    ensures { WritesKeepLawful }
{}

// Stores with equal pairs and longest keys answer every question alike.
pub fn equal_stores_answer_alike()
    ensures { EqualStoresAnswerAlike }
{}

// Pairs are told by what is looked up in them.
pub fn look_ups_tell_pairs()
    ensures { LookUpsTellPairs }
{}

// A store seen through a prefix is a store again.
pub fn views_of_stores()
    ensures { ViewsOfStores }
{}

// A view of a view is one view through both prefixes.
pub fn views_join()
    ensures { ViewsJoin }
{}

// Asked for again and again, the next key and the next child run through all of them once, ascending.
pub fn listing_finds_all()
    ensures { ListingFindsAll }
{}
