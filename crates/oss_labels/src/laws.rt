//! What holds of every program, accepted or not: laws, each carried by a function that does nothing. A crate above calls
//! the function, and then has the law.

ghost use Rattle.oss_labels.specs.Claims.{BodiesBeginApart, CodesStandAtPlaces, LabelsAreTold};

/// The bodies of a program begin at different instructions of its code: `main`, each function, and the statement behind
/// each pragma.
pub fn bodies_begin_apart()
    ensures { BodiesBeginApart }
{}

/// The code that a program becomes is a code of it in which each body stands at the place that lowering gives it.
pub fn codes_stand_at_places()
    ensures { CodesStandAtPlaces }
{}

/// At the place of each body of a program the labels of the program have its label, and none where it has none.
pub fn labels_are_told()
    ensures { LabelsAreTold }
{}
