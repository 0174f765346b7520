//! What a seat reads: the edits that it was not handed yet, one coordinate, the whole plane.
//!
//! No call here waits: none has a bound that would let it.

ghost use Rattle.std.specs.Prelude.{◌≡◌, ◌≤◌, length, IfOk, IfErr};
ghost use Rattle.edit_stamps.specs.Edit.{greatest};
ghost use Rattle.generations_rule.specs.Place.{at_place};
ghost use Rattle.stamped_writes.specs.Write.{AreSame};
ghost use Rattle.stamped_tree.specs.Plane.{map_of};
ghost use Rattle.board.specs.Entries.{edits_of};
ghost use Rattle.board.specs.Handing.{IsNews};
ghost use Rattle.board.specs.Learning.{HasLearnt};
ghost use Rattle.board.specs.Origins.{GoesOn, origin, list_of};

use crate::fault::SeatFault;
use crate::front::Front;
use crate::window::Window;
use core::mem::replace_with;
use edit_stamps::Write;
use poll_news::News;
use stamped_tree::Plane;
use std::alloc::Global;

/// Who reads the published list: what it has seen, and how many entries of that it was handed out.
#[derive(Drop)]
pub struct BoardReader {
    alloc: Global,
    pub window: Window,
    pub handed: u64,
    pub ghost within: { handed ≤ length window.front.prefix.seen.log },
}

/// The greatest write at a coordinate, through a window.
fn viewed(window: Window, x: i32, y: i32) -> (Window, Result<Write, SeatFault>)
    ensures seen { GoesOn window.front result.0.front }
    ensures write { IfOk result.1 (λ w. w ≡ greatest (edits_of (list_of result.0.front)) (at_place x y)) }
    ensures fault { IfErr result.1 (λ f. (f ≡ SeatFault.Closed) × (result.0.front ≡ window.front)) }
{
    match window.enter() {
        Err(window) => (window, Err(SeatFault::Closed)),
        Ok(open) => {
            let write = open.board().get(x, y);
            (open.leave(), Ok(write))
        }
    }
}

/// The plane, through a window.
fn planed(window: Window) -> (Window, Result<Plane, SeatFault>)
    ensures seen { GoesOn window.front result.0.front }
    ensures plane { IfOk result.1 (λ p. AreSame (map_of p) (greatest (edits_of (list_of result.0.front)))) }
    ensures fault { IfErr result.1 (λ f. f ≡ SeatFault.Closed → result.0.front ≡ window.front) }
{
    match window.enter() {
        Err(window) => (window, Err(SeatFault::Closed)),
        Ok(open) => {
            let plane = open.board().copy_plane();
            let window = open.leave();
            match plane {
                Ok(plane) => (window, Ok(plane)),
                Err(_) => (window, Err(SeatFault::Memory)),
            }
        }
    }
}

/// What follows so many entries, through a window.
fn polled(alloc: Global, window: Window, handed: u64) -> (Window, Result<News, SeatFault>)
    requires { handed ≤ length (list_of window.front) }
    ensures seen { GoesOn window.front result.0.front }
    ensures news { IfOk result.1 (λ n. IsNews (edits_of (list_of result.0.front)) handed n) }
    ensures fault { IfErr result.1 (λ f. f ≡ SeatFault.Closed → result.0.front ≡ window.front) }
{
    match window.enter() {
        Err(window) => (window, Err(SeatFault::Closed)),
        Ok(open) => {
            let news = open.board().news(alloc, handed);
            let window = open.leave();
            match news {
                Ok(news) => (window, Ok(news)),
                Err(_) => (window, Err(SeatFault::Memory)),
            }
        }
    }
}

impl BoardReader {
    /// A reader that was handed nothing yet.
    pub fn new(alloc: Global, window: Window) -> BoardReader
        ensures { (result.window ≡ window) × (result.handed ≡ 0) }
    {
        BoardReader {
            alloc,
            window,
            handed: 0,
        }
    }

    /// Hands out the edits that follow those handed out before, in order, or the whole plane where some of
    /// them are no longer among the last 1,024. Either way the whole list is handed out then.
    pub fn poll(&mut self) -> Result<News, SeatFault>
        ensures seen { GoesOn self.old.window.front self.new.window.front }
        ensures news { IfOk result (λ n. IsNews (edits_of (list_of self.new.window.front)) self.old.handed n × (self.new.handed ≡ length (list_of self.new.window.front))) }
        ensures fault { IfErr result (λ f. (self.new.handed ≡ self.old.handed) × (f ≡ SeatFault.Closed → self.new.window.front ≡ self.old.window.front)) }
    {
        let news = replace_with(
            &mut self.window,
            (self.alloc, self.handed),
            |window, (alloc, handed)| polled(alloc, window, handed),
        );
        if news.is_ok() {
            self.handed = self.window.front.len();
        }
        news
    }

    /// The greatest write at a coordinate, of a list that begins with what was seen. It takes no memory.
    pub fn view(&mut self, x: i32, y: i32) -> Result<Write, SeatFault>
        ensures seen { GoesOn self.old.window.front self.new.window.front }
        ensures write { IfOk result (λ w. w ≡ greatest (edits_of (list_of self.new.window.front)) (at_place x y)) }
        ensures handed { self.new.handed ≡ self.old.handed }
        ensures fault { IfErr result (λ f. (f ≡ SeatFault.Closed) × (self.new.window.front ≡ self.old.window.front)) }
    {
        replace_with(
            &mut self.window,
            (x, y),
            |window, (x, y)| viewed(window, x, y),
        )
    }

    /// The plane of a list that begins with what was seen.
    pub fn plane(&mut self) -> Result<Plane, SeatFault>
        ensures seen { GoesOn self.old.window.front self.new.window.front }
        ensures plane { IfOk result (λ p. AreSame (map_of p) (greatest (edits_of (list_of self.new.window.front)))) }
        ensures handed { self.new.handed ≡ self.old.handed }
        ensures fault { IfErr result (λ f. f ≡ SeatFault.Closed → self.new.window.front ≡ self.old.window.front) }
    {
        replace_with(&mut self.window, (), |window, ()| planed(window))
    }

    /// Hands out the plane of a list that begins with what was seen, and says how many entries that list has.
    /// The whole list is handed out then. After a fault nothing more is handed out than before.
    pub fn hand_out(&mut self) -> Result<(Plane, u64), SeatFault>
        ensures seen { GoesOn self.old.window.front self.new.window.front }
        ensures plane { IfOk result (λ p. AreSame (map_of p.0) (greatest (edits_of (list_of self.new.window.front)))) }
        ensures count { IfOk result (λ p. (p.1 ≡ length (list_of self.new.window.front)) × (self.new.handed ≡ length (list_of self.new.window.front))) }
        ensures fault { IfErr result (λ f. (self.new.handed ≡ self.old.handed) × (f ≡ SeatFault.Closed → self.new.window.front ≡ self.old.window.front)) }
    {
        let plane = self.plane()?;
        let count = self.window.front.len();
        self.handed = count;
        Ok((plane, count))
    }

    /// From now on it sees no less than this list.
    pub fn learn(&mut self, front: &Front)
        requires origin { origin front.now ≡ origin self.old.window.front }
        ensures same { (self.new.handed ≡ self.old.handed) × (origin self.new.window.front ≡ origin self.old.window.front) }
        ensures learnt { HasLearnt (list_of self.old.window.front) (list_of front.now) (list_of self.new.window.front) }
    {
        self.window.learn(front);
    }
}
