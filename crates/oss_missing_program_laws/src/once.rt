//! That what is missing is told in one way: a law, carried by a function that does nothing.

ghost use Rattle.oss_missing_program_laws.specs.Once.{MissingIsOne};

/// All that is missing of a code is one.
pub fn missing_is_one()
    ensures { MissingIsOne }
{}
