// The laws of what is stored, each asked for by a contract.
ghost use Rattle.pools.specs.Laws.{StoredStays, StoredIsOne, ShelfIsShown};
ghost use Rattle.pools.specs.Example.{ThreeColumnsAreShown};

// What is stored stays stored while the pools only grow.
pub fn stored_columns_stay()
    ensures { StoredStays }
{}

// A place stores at most one column, but for spare bits.
pub fn a_place_stores_one_column()
    ensures { StoredIsOne }
{}

// The pools show the shelf of the ledger, from the fresh one on, as columns are added.
pub fn the_shelf_is_shown()
    ensures { ShelfIsShown }
{}

// Three filed columns with all that lies in the pools for them: lists, booleans with a mask, a view.
pub fn three_columns_are_shown()
    ensures { ThreeColumnsAreShown }
{}
