//! A list of entries that only grows, and prefixes of it that were seen. It stands in the proofs alone
//! (`logbook`): the program keeps a word that counts it, and a count for each prefix.

ghost use Rattle.std.specs.Prelude.{◌≡◌, ◌+◌, ◌<◌, ◌≤◌, ◌^◌, ◌++◌, ◌∷◌, ◌⊎◌, ◌↔◌, [], length, IfErr, IsTrue, MatchBool, OnErr, OnOk};
ghost use mathlib.Core.List.{IsPrefix};
ghost use Rattle.board.specs.Rules.{head_of};

use crate::entry::Entry;
use logbook::{Gain, Offer, Plain, Play, Rule, Seen, Start, Word};

/// The most entries of a history: the word that counts them may not pass 2^63.
const MOST_ENTRIES: u64 = 1 << 62;

/// What holds of a history: the word counts its entries.
pub struct HistoryRule;

impl Rule<Entry, u64> for HistoryRule {
    ghost use Rattle.std.specs.Prelude.{[]};
    ghost use base.Fml.{ftrue};
    ghost use Rattle.board.specs.Rules.{IsKept};

    ghost holds = { λ cells log. IsKept cells log };

    ghost first = { [] };

    ghost hinted = { λ n log. Unit {0} };

    ghost shows = { λ log. [] };

    ghost keeps = { λ names log. ftrue };

    ghost moves = { λ ask before after answer. Unit {0} };
}

/// What who adds an entry gains beside having seen it.
struct Nothing;

impl Gain<Entry, u64> for Nothing {
    ghost use base.Fml.{ftrue};

    ghost after = { λ names about answer. ftrue };
}

/// The step that adds an entry.
struct Add;

impl Play<Entry, u64> for Add {
    ghost use Rattle.board.specs.Rules.{Adds};

    ghost then = { Adds };
}

impl Plain<Entry, Entry, u64> for Add {
    ghost use Rattle.std.specs.Prelude.{None};

    ghost ask = { λ entry. entry };

    ghost state = { λ entry. None };
}

/// A history: the word that counts its entries. Its owner alone adds to it.
#[derive(Drop)]
pub struct History {
    head: Word<Entry, u64, HistoryRule>,
    pub ghost head_is: { head ≡ head_of head.book },
}

/// A prefix of a history that was seen.
#[derive(Drop)]
pub struct Prefix {
    count: u64,
    pub seen: Seen<Entry, u64, HistoryRule>,
    pub ghost counted: { count ≡ length seen.log },
}

/// Why a history takes no entry.
#[derive(Drop)]
pub enum AddFault {
    /// It has 2^62 entries.
    Full,
    /// It is longer than what was seen: somebody else added to it. This much of it was seen then.
    Longer(Prefix),
}

impl History {
    ghost use Rattle.board.specs.Adding.{IsAddFault};

    /// An empty history, and the prefix that is all of it.
    pub fn new() -> (History, Prefix)
        ensures empty { result.1.seen.log ≡ [] }
        ensures book { result.1.seen.book ≡ result.0.head.book }
    {
        let (seen, mut first, _second) = Seen::open(Start::alone(), 0, 0);
        let head = Word::tracked(0, &mut first);
        (History { head }, Prefix { count: 0, seen })
    }

    /// Adds an entry behind all that was seen. After a refusal nothing changed: the history has 2^62 entries,
    /// or is longer than what was seen, and more of it is told.
    pub fn add(&self, prefix: &mut Prefix, entry: &Entry) -> Result<(), AddFault>
        requires book { prefix.old.seen.book ≡ self.now.head.book }
        ensures book { prefix.new.seen.book ≡ prefix.old.seen.book }
        ensures added { OnOk result (prefix.new.seen.log ≡ prefix.old.seen.log ++ entry.now ∷ []) }
        ensures same { OnErr result (prefix.new ≡ prefix.old) }
        ensures cause { IfErr result (IsAddFault self.now.head.book prefix.old.seen.log) }
    {
        if prefix.count >= MOST_ENTRIES {
            return Err(AddFault::Full);
        }
        let mut seen = prefix.seen.again();
        let mut offer: Offer<Entry, u64, HistoryRule, Nothing> = seen.plain::<Nothing, Entry, Add>(
            entry,
        );
        let mut pen = seen.no_pen();
        let count = prefix.count;
        let found = self
            .head
            .compare_exchange::<Add, Nothing>(count, count + 1, &mut seen, &mut offer, &mut pen);
        if found != count {
            return Err(AddFault::Longer(Prefix { count: found, seen }));
        }
        *prefix = Prefix {
            count: count + 1,
            seen,
        };
        Ok(())
    }
}

impl Prefix {
    /// How many entries it has.
    pub fn len(&self) -> u64
        ensures { result ≡ length self.now.seen.log }
    {
        self.count
    }

    /// The same prefix.
    pub fn again(&self) -> Prefix
        ensures { result ≡ self.now }
    {
        Prefix {
            count: self.count,
            seen: self.seen.again(),
        }
    }

    /// Whether this prefix is at most as long as another of the same history, and so begins it; else
    /// the other begins this one.
    pub fn begins(&self, other: &Prefix) -> bool
        requires { other.now.seen.book ≡ self.now.seen.book }
        ensures shorter { IsTrue result ↔ (length self.now.seen.log ≤ length other.now.seen.log) }
        ensures begins { MatchBool result (IsPrefix self.now.seen.log other.now.seen.log) (IsPrefix other.now.seen.log self.now.seen.log) }
    {
        let mut both = self.seen.again();
        both.learn(&other.seen);
        if self.count <= other.count {
            true
        } else {
            false
        }
    }
}
