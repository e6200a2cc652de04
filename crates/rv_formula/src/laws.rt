//! A law of the definitions, the contract of a function that does nothing.

ghost use Rattle.rv_formula.specs.Parsing.{NoFormulaBeginsSo};

/// Where some tokens are read to an error, no formula begins with them.
pub fn no_formula_begins_so()
    ensures { NoFormulaBeginsSo }
{}
