//! What the definitions obey, for all texts: the contract of a function that does nothing.

ghost use Rattle.genedit_script.specs.Laws.{AcceptsScripts, RefusesFaults, RefusesHeadFaults};

/// A text is accepted exactly if its lines are a script: skipped lines, a `rule` line, skipped
/// lines, a `replicas` line, and then skipped lines, commands and whole blocks. It is refused
/// exactly at the first line that cannot stand where it stands, at the `pattern` line of a block
/// without its `end`, or at the line behind the last, where the `rule` or `replicas` line is due.
pub fn script_laws()
    ensures accepted { AcceptsScripts }
    ensures refused { RefusesFaults }
    ensures head { RefusesHeadFaults }
{}
