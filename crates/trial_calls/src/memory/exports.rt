//! Many exports, by one worker and by two, and texts by tiles.

ghost use Rattle.edit_stamps.specs.PlaneMap.{HasStatesBelow};
ghost use Rattle.stamped_tree.specs.Plane.{map_of};

use crate::memory::engines::{PAIR, PAST};
use crate::memory::{Verdict, planes};
use export::{Cut, ExportFault, cut_by_tiles, export_by_tiles};
use export_workers::{Export, Free, export_many};
use generations_rule::Rule;
use pattern_cells::Window;
use stamped_tree::Plane;
use std::alloc::Global;
use std::thread::Threads;

/// Two live cells three generations later.
const LATER: &[u8] = b"#CXRLE Pos=-1,-3 Gen=3\nx = 4, y = 7, rule = /2/3\n\
    .2A$.2B$A2.A$B2.B$A2.A$.2B$.2A!\n";

/// One past the last is among the generations.
static GENERATIONS: [u32; 4] = [3, PAST, 0, 3];

static EXPORTS: [Result<&[u8], ExportFault>; 4] = [
    Ok(LATER),
    Err(ExportFault::GenRange),
    Ok(b"#CXRLE Pos=0,0 Gen=0\nx = 2, y = 1, rule = /2/3\n2A!\n"),
    Ok(LATER),
];

fn is_export(export: &Export, expected: &Result<&[u8], ExportFault>) -> bool {
    match (export, expected) {
        (Ok(text), Ok(bytes)) => text.as_slice() == *bytes,
        (Err(fault), Err(other)) => *fault == *other,
        _ => false,
    }
}

/// How exports meet what is expected, place by place.
fn met(exports: &[Export]) -> Verdict {
    if exports.len() != EXPORTS.len() {
        return Verdict::Neither;
    }
    let mut met = Verdict::Meant;
    for (export, expected) in exports.iter().zip(EXPORTS.iter()) {
        let is_want = matches!(export, Err(ExportFault::Memory));
        met = met.beside(is_want, is_export(export, expected));
    }
    met
}

fn exported<R: Threads + Sync>(
    rt: &R,
    alloc: Global,
    rule: &Rule,
    plane: &Plane,
    workers: u16,
) -> Verdict
    requires { HasStatesBelow rule.now.states (map_of plane.now) }
{
    match export_many(rt, alloc, rule, plane, &GENERATIONS, workers, &Free) {
        Ok(exports) => met(exports.as_slice()),
        Err(_) => Verdict::Want,
    }
}

/// Whether so many workers export as they are meant to, at the second time where there was no memory.
pub fn exports<R: Threads + Sync>(rt: &R, alloc: Global, workers: u16) -> bool {
    let Ok(rule) = Rule::parse(b"/2/3") else {
        return false;
    };
    let Some(plane) = planes::plane(alloc, &rule, &PAIR) else {
        return false;
    };
    match exported(rt, alloc, &rule, &plane, workers) {
        Verdict::Want => exported(rt, alloc, &rule, &plane, workers) == Verdict::Meant,
        verdict => verdict == Verdict::Meant,
    }
}

/// How a text by tiles meets what is expected. None is told for want of memory alone, of so few cells.
fn told_by_tiles(told: Option<Result<Vec<u8>, ExportFault>>, expected: &[u8]) -> Verdict {
    match told {
        None | Some(Err(ExportFault::Memory)) => Verdict::Want,
        Some(Ok(text)) if text.as_slice() == expected => Verdict::Meant,
        Some(_) => Verdict::Neither,
    }
}

/// Two columns and three rows of that.
const CORNER: &[u8] = b"#CXRLE Pos=-1,-3 Gen=3\nx = 2, y = 3, rule = /2/3\n.A$.B$A!\n";

fn cut(alloc: Global, rule: &Rule, plane: &Plane) -> Verdict
    requires { HasStatesBelow rule.now.states (map_of plane.now) }
{
    let cut = Cut {
        window: Window {
            x: -1,
            y: -3,
            width: 2,
            height: 3,
        },
        generation: 3,
    };
    told_by_tiles(cut_by_tiles(alloc, rule, plane, cut), CORNER)
}

fn exported_by_tiles(alloc: Global, rule: &Rule, plane: &Plane) -> Verdict
    requires { HasStatesBelow rule.now.states (map_of plane.now) }
{
    told_by_tiles(export_by_tiles(alloc, rule, plane, 3), LATER)
}

/// Whether tiles export and cut as they are meant to, at the second time where there was no memory.
pub fn by_tiles(alloc: Global) -> bool {
    let Ok(rule) = Rule::parse(b"/2/3") else {
        return false;
    };
    let Some(plane) = planes::plane(alloc, &rule, &PAIR) else {
        return false;
    };
    let export = match exported_by_tiles(alloc, &rule, &plane) {
        Verdict::Want => exported_by_tiles(alloc, &rule, &plane),
        verdict => verdict,
    };
    let cut = match cut(alloc, &rule, &plane) {
        Verdict::Want => cut(alloc, &rule, &plane),
        verdict => verdict,
    };
    export == Verdict::Meant && cut == Verdict::Meant
}
