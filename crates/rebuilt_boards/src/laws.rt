ghost use Rattle.rebuilt_boards.specs.RebuiltBoards.{BoardsAreRebuilt, BoardsAreBuiltWell};

/// The board that is built for one that is taken is accepted, has as many chips, and shows on every port what the old board
/// shows, over every list of lawful inputs from power-up.
pub fn boards_are_rebuilt()
    ensures { BoardsAreRebuilt }
{}

/// The chips that are built have cells that some fuses make, and the wiring and the plan can be written.
pub fn boards_are_built_well()
    ensures { BoardsAreBuiltWell }
{}
