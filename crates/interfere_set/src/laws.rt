//! The laws of what tasks see and are handed. They speak of definitions alone: no call is made.
ghost use Rattle.std.specs.Prelude.{◌≡◌, ℕ, Bool, true, false, IsTrue, eqb, Some};
ghost use Rattle.std.specs.FinMap.{get};
ghost use Rattle.tm_lattice.specs.Heights.{IsHeight};
ghost use Rattle.tm_lattice.specs.Tables.{Table};
ghost use Rattle.pointer_dom.specs.Values.{Values, IsValues, IsValuesBelow};
ghost use Rattle.interfere_set.specs.Stores.{Interferences, IsStore, IsStoreBelow, Reader, is_visible, visible};
ghost use Rattle.interfere_set.specs.Stores.{handed, store_height};

/// What a task sees in a cell lies above each entry that it may see, and is more where the store is or where the cell
/// is no longer fresh.
pub fn visible_entries()
    ensures upper { (reader : Reader) (fresh : Bool) (cell j l : ℕ) (store : Interferences)
        (written : Table (Table Values)) (cells : Table Values) (v : Values) → IsStore store
        → get store.weak j ≡ Some written → get written l ≡ Some cells → get cells cell ≡ Some v
        → is_visible reader fresh j l ≡ true → IsValuesBelow v (visible reader fresh cell store) }
    ensures rises { (reader : Reader) (fresh fresh' : Bool) (cell : ℕ) (store other : Interferences)
        → IsStore store → IsStore other → IsStoreBelow store other → (IsTrue fresh' → IsTrue fresh)
        → IsValuesBelow (visible reader fresh cell store) (visible reader fresh' cell other) }
{}

/// What a task is handed at a lock lies above each entry that another task left there, and is more where the store is.
pub fn handed_entries()
    ensures upper { (task mutex cell j : ℕ) (store : Interferences) (left : Table (Table Values)) (cells : Table Values)
        (v : Values) → IsStore store → get store.sync j ≡ Some left → get left mutex ≡ Some cells
        → get cells cell ≡ Some v → eqb j task ≡ false → IsValuesBelow v (handed task mutex cell store) }
    ensures rises { (task mutex cell : ℕ) (store other : Interferences) → IsStore store → IsStore other
        → IsStoreBelow store other → IsValuesBelow (handed task mutex cell store) (handed task mutex cell other) }
{}

/// Whatever height the values have: the height of a store, the sum over its entries, rises where the store does.
pub fn store_heights()
    ensures { (height : Values → ℕ) → IsHeight IsValues IsValuesBelow height
        → IsHeight IsStore IsStoreBelow (store_height height) }
{}
