//! What scripts obey: the contract of a function that does nothing.

ghost use Rattle.genedit_lib.specs.Laws.{HasOneOutput};

/// A script has one output: whatever run of it ends well prints the same bytes.
pub fn output_laws()
    ensures { HasOneOutput }
{}
