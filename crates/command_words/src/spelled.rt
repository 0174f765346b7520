//! What the words of a line spell.

ghost use Rattle.std.specs.Prelude.{◌≡◌, option_map};
ghost use Rattle.command_words.specs.Quotes.{are_unquoted, line_words};
ghost use Rattle.command_words.specs.Spelled.{is_empty, line_spelled, spelled_of};

use crate::argument::Argument;
use crate::dialect::Dialect;
use crate::keyword::Keyword;
use crate::quotes::opens_quote;
use crate::ranges::{GenerationRange, range_in};
use crate::turns::turn_in;
use crate::values::{
    file_in, most_in, name_in, new_name_in, replicas_in, rule_in, state_in, unsigned,
};
use pattern_turns::Turn;
use text_scan::signed;

/// What the words of a line spell: the keyword that it begins with, and what is said by each argument
/// behind it. What a line does not say is nothing, an empty text or 0; but the replica is number 1, as is
/// the one replica of a client.
#[derive(Clone, Copy)]
pub struct Spelled<'a> {
    /// Whose line it is.
    dialect: Dialect,
    pub keyword: Keyword,
    /// The text of a rule.
    pub rule: &'a [u8],
    /// How many replicas there are.
    pub replicas: u16,
    /// The name of a pattern.
    pub name: &'a [u8],
    /// The name that is given to what becomes of it.
    pub new_name: &'a [u8],
    /// A turn of a pattern.
    pub turn: Option<Turn>,
    pub replica: u32,
    pub other_replica: u32,
    pub x: i32,
    pub y: i32,
    pub state: u8,
    pub width: u32,
    pub height: u32,
    pub message: u32,
    /// The place of the first edit in a journal.
    pub from: u32,
    /// How many edits of the journal.
    pub count: u32,
    pub generation: u32,
    /// Several generations, where the line says them in the place of one.
    pub range: Option<GenerationRange>,
    /// How many generations are looked at for a period, at most; 0 alone where the line does not say it.
    pub most: u16,
    /// The name of a file, without the quotes round it; `-` for one that is written names none.
    pub file: Option<&'a [u8]>,
    /// How many edits are waited for.
    pub edits: u32,
    pub milliseconds: Option<u32>,
    /// The words of the arguments that are repeated, which `cells_in` reads.
    pub behind: &'a [u8],
}

/// What the words of a line spell, unless its first word is no keyword of the dialect, or the others do
/// not stand for just the arguments of that keyword.
pub fn read_line(dialect: Dialect, line: &[u8]) -> Option<Spelled<'_>>
    ensures { option_map spelled_of result ≡ line_spelled dialect (line_words dialect line.now) }
{
    let (name, behind) = dialect.split_word(line)?;
    let keyword = dialect.keyword(name)?;
    let begun = Spelled::begun(dialect, keyword, behind);
    let spelled = begun.with_all(keyword.arguments(dialect))?;
    let spelled = spelled.with_optional(keyword.optional(dialect))?;
    spelled.if_whole()
}

impl<'a> Spelled<'a> {
    ghost use Rattle.std.specs.Prelude.{◌≡◌, option_map};
    ghost use Rattle.command_words.specs.Quotes.{line_words};
    ghost use Rattle.command_words.specs.Spelled.{begun, if_whole, is_empty, is_whole, spelled_of, spoken_of, with_all, with_generations, with_next, with_number, with_optional, with_word};
    ghost use Rattle.command_words.specs.Values.{new_file_spelled};

    /// A line that begins with a keyword, where nothing behind it is read yet.
    pub(crate) fn begun(dialect: Dialect, keyword: Keyword, behind: &'a [u8]) -> Spelled<'a>
        ensures { spoken_of result ≡ begun keyword (line_words dialect behind.now) }
    {
        Spelled {
            dialect,
            keyword,
            rule: b"",
            replicas: 0,
            name: b"",
            new_name: b"",
            turn: None,
            replica: 1,
            other_replica: 0,
            x: 0,
            y: 0,
            state: 0,
            width: 0,
            height: 0,
            message: 0,
            from: 0,
            count: 0,
            generation: 0,
            range: None,
            most: 0,
            file: None,
            edits: 0,
            milliseconds: None,
            behind,
        }
    }

    /// The same with what the next words say, each as one of these arguments.
    fn with_all(&self, arguments: &[Argument]) -> Option<Spelled<'a>>
        ensures { option_map spoken_of result ≡ with_all arguments.now (spoken_of self.now) }
    {
        let mut spelled = *self;
        let mut rest = arguments;
        while let Some((argument, behind)) = rest.split_first() {
            spelled = spelled.with_next(*argument)?;
            rest = behind;
        }
        Some(spelled)
    }

    /// The same with what the next words say as these arguments, where there is a next word.
    fn with_optional(&self, arguments: &[Argument]) -> Option<Spelled<'a>>
        ensures { option_map spoken_of result ≡ with_optional arguments.now (spoken_of self.now) }
    {
        if self.ends() {
            Some(*self)
        } else {
            self.with_all(arguments)
        }
    }

    /// The same with what the next word says as an argument.
    fn with_next(&self, argument: Argument) -> Option<Spelled<'a>>
        ensures { option_map spoken_of result ≡ with_next argument (spoken_of self.now) }
    {
        let (word, behind) = self.dialect.split_word(self.behind)?;
        Spelled { behind, ..*self }.with_word(argument, word)
    }

    /// The same with what a word says as an argument, unless it cannot stand for that.
    pub(crate) fn with_word(&self, argument: Argument, word: &'a [u8]) -> Option<Spelled<'a>>
        ensures { option_map spoken_of result ≡ with_word argument word.now (spoken_of self.now) }
    {
        match argument {
            Argument::Rule => Some(Spelled {
                rule: rule_in(word)?,
                ..*self
            }),
            Argument::Replicas => Some(Spelled {
                replicas: replicas_in(word)?,
                ..*self
            }),
            Argument::Name => Some(Spelled {
                name: name_in(word)?,
                ..*self
            }),
            Argument::NewName => Some(Spelled {
                new_name: name_in(word)?,
                ..*self
            }),
            Argument::Turn => Some(Spelled {
                turn: Some(turn_in(word)?),
                ..*self
            }),
            Argument::X => Some(Spelled {
                x: signed(word)?,
                ..*self
            }),
            Argument::Y => Some(Spelled {
                y: signed(word)?,
                ..*self
            }),
            Argument::State => Some(Spelled {
                state: state_in(word)?,
                ..*self
            }),
            Argument::Most => Some(Spelled {
                most: most_in(word)?,
                ..*self
            }),
            Argument::File => Some(Spelled {
                file: Some(file_in(word)),
                ..*self
            }),
            Argument::NewFile => self.with_new_file(word),
            Argument::Generations => self.with_generations(word),
            _ => Some(self.with_number(argument, unsigned(word)?)),
        }
    }

    /// The same with the file that a word names to be written: `-` names none.
    fn with_new_file(&self, word: &'a [u8]) -> Option<Spelled<'a>>
        ensures { option_map spoken_of result ≡ option_map (λ file. record (spoken_of self.now) { file = file }) (new_file_spelled word.now) }
    {
        let file = if word == b"-".as_slice() {
            None
        } else {
            Some(new_name_in(word)?)
        };
        Some(Spelled { file, ..*self })
    }

    /// The same with the generation that a word says, or with a range of them.
    fn with_generations(&self, word: &'a [u8]) -> Option<Spelled<'a>>
        ensures { option_map spoken_of result ≡ with_generations word.now (spoken_of self.now) }
    {
        match unsigned(word) {
            Some(generation) => Some(Spelled {
                generation,
                ..*self
            }),
            None => Some(Spelled {
                range: Some(range_in(word)?),
                ..*self
            }),
        }
    }

    /// The same with a number of 32 bits as an argument; an argument that is none leaves all as it is.
    fn with_number(&self, argument: Argument, number: u32) -> Spelled<'a>
        ensures { spoken_of result ≡ with_number argument number (spoken_of self.now) }
    {
        let mut spelled = *self;
        match argument {
            Argument::Replica | Argument::OneReplica => spelled.replica = number,
            Argument::OtherReplica => spelled.other_replica = number,
            Argument::Width => spelled.width = number,
            Argument::Height => spelled.height = number,
            Argument::Message => spelled.message = number,
            Argument::From => spelled.from = number,
            Argument::Count => spelled.count = number,
            Argument::Generation => spelled.generation = number,
            Argument::Edits => spelled.edits = number,
            Argument::Milliseconds => spelled.milliseconds = Some(number),
            _ => {}
        }
        spelled
    }

    /// The same, if it is whole.
    fn if_whole(&self) -> Option<Spelled<'a>>
        ensures { option_map spelled_of result ≡ if_whole (spoken_of self.now) }
    {
        if self.is_whole() { Some(*self) } else { None }
    }

    /// Whether words are left exactly where the keyword has arguments that are repeated, and none of them
    /// in quotes.
    fn is_whole(&self) -> bool
        ensures { result ≡ is_whole (spoken_of self.now) }
    {
        self.ends() == self.keyword.repeated().is_empty() && are_unquoted(self.dialect, self.behind)
    }

    /// Whether there is no further word.
    fn ends(&self) -> bool
        ensures { result ≡ is_empty (line_words self.now.dialect self.now.behind.now) }
    {
        self.dialect.split_word(self.behind).is_none()
    }
}

/// Whether no word of a line, or of what is left of it, begins with a quote.
fn are_unquoted(dialect: Dialect, line: &[u8]) -> bool
    ensures { result ≡ are_unquoted (line_words dialect line.now) }
{
    let mut rest = line;
    while let Some((word, behind)) = dialect.split_word(rest) {
        if opens_quote(word) {
            return false;
        }
        rest = behind;
    }
    true
}
