//! What is wrong with a line, and what may be.

use command_words::{Argument, Keyword};
use generations_rule::RuleFault;
use header_rules::{Misspelling, OtherFamily};

/// What is wrong with a line of a script or of a client.
#[derive(Clone, Copy, Debug, PartialEq, Eq)]
pub enum Reason {
    /// The file, or a client's line, begins with a byte order mark.
    ByteOrderMark,
    /// The byte is no text.
    NoText(u8),
    /// The first word is no command; the nearest one.
    NoCommand(Option<Keyword>),
    /// The first word begins lines of the other dialect alone.
    OtherDialect,
    /// A word is missing behind the line's last.
    Missing(Argument, Keyword),
    /// A word stands behind the last that can.
    Surplus(Keyword),
    /// A remark stands behind a command.
    Remark,
    /// The word is no whole number.
    NoNumber(Argument),
    /// The word is a number that the argument cannot be.
    OutOfRange(Argument),
    /// The word is no name of a pattern.
    NoName,
    /// The word is no turn.
    NoTurn,
    /// The word is no range of generations.
    NoRange,
    /// A range of generations is exported, and its files cannot have the name that stands here, or none does.
    NoFilm,
    /// The rule is spelt as Golly spells it too, and a script does not.
    OtherSpelling,
    /// The rule is of another family.
    OtherFamily(OtherFamily),
    /// The word is no rule.
    NoRule(RuleFault),
    /// The block has no line `end`; the line whose one word is `end` with blanks beside it.
    OpenBlock(Option<u64>),
    /// `end` stands where no block is open.
    NoBlock,
    /// The script does not begin with its rule.
    RuleDue,
    /// The number of replicas does not follow the rule.
    ReplicasDue,
    /// The rule stands here once more, or too late; the line that is due for it.
    RuleAgain(Option<u64>),
    /// The number of replicas stands here once more, or too late.
    ReplicasAgain(Option<u64>),
    /// The line is no command of this form.
    NoForm(Keyword),
}

/// What is no fault, and may be a mistake.
#[derive(Clone, Copy, Debug, PartialEq, Eq)]
pub enum Warning {
    /// A pattern's header tells another rule than the script's or the board's.
    OtherRule,
    /// A pattern's header tells a rule that cannot be read, for this.
    UnreadRule(Misspelling),
    /// A pattern's header tells the bounds of a grid, and the rule of the script or of the board.
    Bounds,
}
