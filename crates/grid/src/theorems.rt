// Theorems about the definitions that the contracts of the calls cite: each function is empty and promises its statement.
ghost use Rattle.std.specs.Prelude.{◌≡◌, true};
ghost use Rattle.grid.specs.Counts.{right_grid};
ghost use Rattle.grid.specs.Theorems.{PlacesCounted, TakenAsPlaced, PlacedAsTaken, CellsInOrder};

// The single test over the pairings, and the counts that follow from it.
pub fn places_counted()
    ensures right_grid_value { right_grid ≡ true }
    ensures places_counted { PlacesCounted }
{}

// Taking what was placed.
pub fn taken_as_placed()
    ensures { TakenAsPlaced }
{}

// Placing what was taken.
pub fn placed_as_taken()
    ensures { PlacedAsTaken }
{}

// The ith place of a kind has cell i of that kind.
pub fn cells_in_order()
    ensures { CellsInOrder }
{}
