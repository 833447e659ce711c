//! Which cells programs touch and name: laws, each carried by a function that does nothing.

ghost use Rattle.oss_missing_program_laws.specs.Cells.{CodesNameTheirCells, CodesTouchTheirCells, ProgramsLeaveClauses, ProgramsNameTheirCells, ProgramsTouchTheirCells};

/// The code of a program touches its own cells alone.
pub fn codes_touch_their_cells()
    ensures { CodesTouchTheirCells }
{}

/// Its clauses name them alone.
pub fn codes_name_their_cells()
    ensures { CodesNameTheirCells }
{}

/// So it is with a program whose globals have their places: it touches its own cells alone.
pub fn programs_touch_their_cells()
    ensures { ProgramsTouchTheirCells }
{}

/// Its clauses name them alone.
pub fn programs_name_their_cells()
    ensures { ProgramsNameTheirCells }
{}

/// No body of a program that has a code asks for a fault of annotations.
pub fn programs_leave_clauses()
    ensures { ProgramsLeaveClauses }
{}
