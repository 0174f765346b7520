//! Scripts, from a source's bytes to a sink's.

ghost use Rattle.std.specs.Prelude.{◌≡◌, ◌≤◌, ◌⊎◌, ◌^◌, IfOk, IfErr};
ghost use Rattle.square_store.specs.Limits.{usual_room};
ghost use Rattle.genedit_io.specs.RunFault.{IsWant};
ghost use Rattle.genedit_lib.specs.Output.{IsScriptOutput};
ghost use Rattle.replica_core.specs.World.{AreReplies, HaveRoom, IsStopOf, opening};
ghost use Rattle.genedit_lib.specs.Run.{IsScriptRun, IsUnprinted, PrintsAs, run_fault_of, run_fault_of_stop, script_events, script_opening};

use crate::output::output;
use crate::plan::planned;
use devices::{Sink, Source};
use genedit_io::{RunFault, pull_all, push_output};
use genedit_script::{Script, ScriptFault, read_script};
use generations_rule::Rule;
use replica_core::{Event, Reply, Stop, World, replay_within};
use square_store::ROOM;
use std::alloc::Global;

/// How many pulls a script has, at most.
const TURNS: u64 = 1 << 32;

/// Pulls a script to its source's end, checks it whole, runs it, and pushes all that it prints at
/// once: a line for each command. A refused command prints its refusal, and the run goes on.
///
/// Where it is Ok, exactly one push was made, of all the output, though it be empty; no fault but a
/// failed push comes after it, and where the run ends otherwise nothing was pushed.
/// `RunFault::Turns` comes after 2^32 pulls that each gave something, `RunFault::StoreFull` where a
/// replica's plane, a state that is read, or the universe of an export needs more than 2^26 squares;
/// `RunFault::Refused` never comes.
pub fn run_script<S: Source, K: Sink>(
    alloc: Global,
    source: &mut S,
    sink: &mut K,
) -> Result<(), RunFault>
    ensures { IsScriptRun (2 ^ 32) usual_room result (S.known source.old) (S.known source.new) K.known sink.old sink.new }
{
    run_script_within(alloc, source, sink, TURNS, ROOM)
}

/// The same with another number of pulls, at most, and with replicas that have another room.
pub fn run_script_within<S: Source, K: Sink>(
    alloc: Global,
    source: &mut S,
    sink: &mut K,
    turns: u64,
    nodes: u32,
) -> Result<(), RunFault>
    requires { 1 ≤ nodes }
    ensures { IsScriptRun turns nodes result (S.known source.old) (S.known source.new) K.known sink.old sink.new }
{
    let text = pull_all(alloc, source, turns)?;
    let out = printed(alloc, &text, nodes)?;
    push_output(sink, &out)
}

/// What the script of a text prints.
fn printed(alloc: Global, text: &[u8], nodes: u32) -> Result<Vec<u8>, RunFault>
    requires { 1 ≤ nodes }
    ensures out { IfOk result (λ out. PrintsAs text.now out.items) }
    ensures fault { IfErr result (λ fault. IsUnprinted nodes text.now fault ⊎ IsWant fault) }
{
    let script = read_script(alloc, text).map_err(fault_of_script)?;
    let out = script_output(alloc, script, nodes).map_err(fault_of_stop)?;
    Ok(out)
}

/// What a script prints.
fn script_output(alloc: Global, script: Script, nodes: u32) -> Result<Vec<u8>, Stop>
    requires { 1 ≤ nodes }
    ensures out { IfOk result (λ out. IsScriptOutput script out.items) }
    ensures stopped { IfErr result (IsStopOf nodes (script_opening script) (script_events script)) }
{
    let (rule, replicas) = (script.rule(), script.replicas());
    let plan = planned(alloc, script.into_commands())?;
    let replies = replies_of(alloc, rule, replicas, nodes, &plan.events)?;
    let out = output(alloc, &plan.lines, &replies)?;
    Ok(out)
}

/// What new replicas of a rule reply to events.
fn replies_of(
    alloc: Global,
    rule: Rule,
    replicas: u16,
    nodes: u32,
    events: &[Event],
) -> Result<Vec<Reply>, Stop>
    requires { 1 ≤ nodes }
    ensures replies { IfOk result (λ replies. AreReplies (opening rule replicas) events.now replies.items) }
    ensures stopped { IfErr result (IsStopOf nodes (opening rule replicas) events.now) }
{
    let (_world, replies) = world_of(alloc, rule, replicas, nodes, events)?;
    Ok(replies)
}

/// The world of new replicas behind events, each with room for so many squares, and what they reply.
fn world_of(
    alloc: Global,
    rule: Rule,
    replicas: u16,
    nodes: u32,
    events: &[Event],
) -> Result<(World, Vec<Reply>), Stop>
    requires { 1 ≤ nodes }
    ensures replies { IfOk result (λ done. AreReplies (opening rule replicas) events.now done.1.items) }
    ensures room { IfOk result (λ done. HaveRoom nodes done.0.replicas) }
    ensures stopped { IfErr result (IsStopOf nodes (opening rule replicas) events.now) }
{
    replay_within(alloc, rule, replicas, nodes, events)
}

fn fault_of_script(fault: ScriptFault) -> RunFault
    ensures { result ≡ run_fault_of fault }
{
    match fault {
        ScriptFault::Line(line) => RunFault::Script(line),
        ScriptFault::Memory => RunFault::Memory,
    }
}

fn fault_of_stop(stop: Stop) -> RunFault
    ensures { result ≡ run_fault_of_stop stop }
{
    match stop {
        Stop::Memory => RunFault::Memory,
        Stop::StoreFull => RunFault::StoreFull,
    }
}
