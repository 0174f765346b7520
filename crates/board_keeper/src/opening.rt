//! A file that was found and loaded is opened for its board.

ghost use Rattle.std.specs.Prelude.{◌≡◌, ◌≢◌, ◌≤◌, ◌-◌, ◌∷◌, ℕ, List, [], length, map, option_map, None, Ok, IsSome, IfErr, IfOk, IfSome};
ghost use Rattle.document_bodies.specs.Bodies.{head_body};
ghost use Rattle.generations_rule.specs.Rule.{IsRule};
ghost use Rattle.kept_log.specs.Found.{IsFound, listed};
ghost use Rattle.kept_log.specs.Kept.{Always, Keeps, Leaves, LeavesNow};
ghost use Rattle.kept_log.specs.declared.log.LogState.TheVariants as log_state;
ghost use Rattle.board_keeper.specs.Opening.{HasHead, IsHeadFault};

use document_bodies::{head_body, rule_in};
use generations_rule::Rule;
use kept_devices::Reopen;
use kept_log::{Found, Log, LogFault, LogState, Parts};
use std::alloc::Global;

/// Why a file names no rule for its board.
#[derive(Clone, Copy, Debug, PartialEq, Eq)]
pub enum HeadFault {
    /// It has no byte, and no rule is given.
    NoRule,
    /// Its first record is not the head of a document.
    NoDocument,
    /// It has another rule than the one that is given.
    OtherRule,
    /// The system refused memory.
    Memory,
}

/// The rule of the board that a file holds; of one without a byte the rule that is given.
pub fn rule_of(alloc: Global, parts: &Parts, asked: Option<Rule>) -> Result<Rule, HeadFault>
    requires asked { IfSome asked IsRule }
    requires head { parts.now.head ≡ None → parts.now.bodies.items ≡ [] }
    ensures rule { IfOk result (λ r. IsRule r × HasHead r parts.now.head parts.now.bodies.items) }
    ensures asked { IfOk result (λ r. IfSome asked (λ a. r ≡ a)) }
    ensures fault { IfErr result (IsHeadFault asked (option_map (λ v. v.items) parts.now.head)) }
{
    let Some(head) = &parts.head else {
        return asked.ok_or(HeadFault::NoRule);
    };
    let told = match rule_in(alloc, head) {
        Ok(Some(told)) => told,
        Ok(None) => return Err(HeadFault::NoDocument),
        Err(_) => return Err(HeadFault::Memory),
    };
    let Some(asked) = asked else {
        return Ok(told);
    };
    if !asked.same(&told) {
        return Err(HeadFault::OtherRule);
    }
    Ok(told)
}

/// Why a file that was found is not opened.
#[derive(Clone, Copy, Debug, PartialEq, Eq)]
pub enum OpenFault {
    /// The system refused memory.
    Memory,
    /// The file failed.
    Write,
}

/// A file that is open under a rule, and how many bytes were cut off behind its last record.
pub type OpenLog<K> = (Log<K>, usize);

/// Opens a file that was found, for a board of this rule: what stands behind its last record is cut off, and a
/// file without a record gets its head. Where it fails, the file comes back.
pub fn opened<K: Reopen>(
    alloc: Global,
    rule: &Rule,
    found: Found<K>,
) -> Result<OpenLog<K>, (OpenFault, K)>
    requires rule { IsRule rule.now }
    requires whole { found.parts.whole ≤ length found.bytes.items }
    requires found { IsFound (K.known found.keep) found.is_doubtful found.bytes.items (listed found.parts.head found.parts.bodies.items) found.parts.whole }
    requires head { HasHead rule.now found.parts.head found.parts.bodies.items }
    ensures open { IfOk result (λ o. o.0.state ≡ log_state.Open) }
    ensures kept { IfOk result (λ o. Keeps (head_body rule.now ∷ map (λ v. v.items) found.parts.bodies.items) (K.known o.0.keep)) }
    ensures lost { IfOk result (λ o. o.1 ≡ length found.bytes.items - found.parts.whole) }
    // A crash meanwhile leaves what it may have left before.
    ensures crash { (kept : List (List ℕ)) (all : List (List ℕ)) → LeavesNow kept all (K.known found.keep) → IsSome found.parts.head → IfOk result (λ o. Always (Leaves kept all) (K.known found.keep) (K.known o.0.keep)) }
{
    match found.settle() {
        Err((_, keep)) => Err((OpenFault::Write, keep)),
        Ok(reopened) => match begun(alloc, rule, reopened.log) {
            Ok(log) => Ok((log, reopened.lost)),
            Err(refused) => Err(refused),
        },
    }
}

/// Puts the head into a file that has none.
fn begun<K: Reopen>(alloc: Global, rule: &Rule, log: Log<K>) -> Result<Log<K>, (OpenFault, K)>
    requires rule { IsRule rule.now }
    requires sound { log.state ≢ log_state.Failed }
    ensures open { IfOk result (λ l. l.state ≡ log_state.Open) }
    ensures same { log.state ≡ log_state.Open → result ≡ Ok log }
    ensures kept { log.state ≡ log_state.Empty → Keeps [] (K.known log.keep) → IfOk result (λ l. Keeps (head_body rule.now ∷ []) (K.known l.keep)) }
{
    if log.state() == LogState::Open {
        return Ok(log);
    }
    let Ok(head) = head_body(alloc, rule) else {
        return Err((OpenFault::Memory, log.into_keep()));
    };
    let mut log = log;
    match log.begin(alloc, &head) {
        Ok(()) => Ok(log),
        Err(LogFault::Memory) => Err((OpenFault::Memory, log.into_keep())),
        Err(_) => Err((OpenFault::Write, log.into_keep())),
    }
}
