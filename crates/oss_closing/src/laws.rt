//! The law of fields that were taken apart.

ghost use Rattle.oss_closing.specs.Told.{FieldsApartTell};

/// The words and slots of a field that was taken apart tell a state of the machine, which a run from the start of main can
/// reach: its memory, the bodies of all tasks by their numbers, each creator before what it has created, the cells that they
/// have given up, and all that was printed.
pub fn fields_apart_tell()
    ensures { FieldsApartTell }
{}
