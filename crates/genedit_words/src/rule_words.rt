//! What a rule looks like, where a text spells none.

ghost use Rattle.std.specs.Prelude.{◌≡◌};
ghost use Rattle.genedit_words.specs.RuleWords.{rule_cure};

use generations_rule::RuleFault;

/// What is wrong with the text of a rule, and what one looks like.
pub fn rule_cure(fault: RuleFault) -> &'static str
    ensures { result.now ≡ rule_cure fault }
{
    match fault {
        RuleFault::Slashes => "a rule is survival/birth/states, as 23/3/2, or Golly's B3/S23",
        RuleFault::Digit(_) =>
            "survival counts are 0 to 8 and birth counts 1 to 8, and that byte is none; a rule is survival/birth/states, as 23/3/2, or Golly's B3/S23",
        RuleFault::States =>
            "the number of states is not 2 to 256; a rule is survival/birth/states, as 23/3/2, or Golly's B3/S23",
    }
}
