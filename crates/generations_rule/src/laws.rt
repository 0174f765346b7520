//! What the definitions obey, for all rules, maps and texts: the contracts of functions that do
//! nothing.

ghost use Rattle.generations_rule.specs.Evolution.{RunsCompose, IsLocal, StaysEmpty, StaysInRange};
ghost use Rattle.generations_rule.specs.RuleText.{AcceptsOnlyRules, ReadsBack, HasShortText};

/// The cell-by-cell evolution of a map: runs compose, a state depends only on what lies near,
/// nothing comes from nothing, and no state leaves the rule's range.
pub fn evolution_laws()
    ensures compose { RunsCompose }
    ensures local { IsLocal }
    ensures empty { StaysEmpty }
    ensures in_range { StaysInRange }
{}

/// Rule texts: what is accepted is a rule, and a rule's printed form is short and read as that
/// rule.
pub fn text_laws()
    ensures rules { AcceptsOnlyRules }
    ensures read_back { ReadsBack }
    ensures short { HasShortText }
{}
