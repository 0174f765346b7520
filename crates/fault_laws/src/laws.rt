//! The law, as the contract of a function that does nothing.

ghost use Rattle.fault_laws.specs.Names.{NamesAgree, NamesAreDistinct};

/// The names of refusals. What a crate says of its refusal is what a program says that ends by it, and
/// no two refusals share a number or a name.
pub fn name_laws()
    ensures agree { NamesAgree }
    ensures distinct { NamesAreDistinct }
{}
