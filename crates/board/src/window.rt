//! A reader of the board with the list that it has seen.

ghost use Rattle.std.specs.Prelude.{◌≡◌, true, IfOk, MatchResult};
ghost use Rattle.left_right.specs.Sides.{view};
ghost use Rattle.board.specs.Learning.{HasLearnt};
ghost use Rattle.board.specs.Origins.{GoesOn, origin, list_of};
ghost use Rattle.board.specs.Sights.{origin_in};

use crate::front::Front;
use crate::rule::{BoardRule, Sees, Sight};
use crate::value::Board;
use left_right::reader::{Reader, Reading};

/// A place among the board's readers, with the list that was seen through it.
#[derive(Drop)]
pub struct Window {
    pub reader: Reader<Board, Sight, BoardRule>,
    pub front: Front,
    pub ghost same: { (view reader.place).knows ≡ true × (origin_in (view reader.place).label ≡ origin front) },
}

/// A window through which the board is read. The publisher waits until it is left: end it by `leave`.
pub struct OpenWindow {
    pub reading: Reading<Board, Sight, BoardRule>,
    pub front: Front,
    pub ghost same: { (view reading.place).knows ≡ true × (origin_in (view reading.place).label ≡ origin front) },
}

impl Window {
    /// Sees a list that begins with what was seen. The window comes back as it was where `left_right` gives
    /// no entry, as once the publisher has ended.
    pub fn enter(self) -> Result<OpenWindow, Window>
        ensures front { MatchResult result (λ o. GoesOn self.front o.front) (λ e. e.front ≡ self.front) }
        ensures board { IfOk result (λ o. o.reading.part.value.list ≡ list_of o.front) }
    {
        let Window { reader, front } = self;
        match reader.enter_as::<Sees>() {
            Err(reader) => Err(Window { reader, front }),
            Ok(reading) => {
                let now = reading.get().front();
                if front.begins(&now) {
                    Ok(OpenWindow {
                        reading,
                        front: now,
                    })
                } else {
                    Err(Window {
                        reader: reading.leave(),
                        front,
                    })
                }
            }
        }
    }

    /// From now on what was seen is the longer of two fronts of one board.
    pub fn learn(&mut self, front: &Front)
        requires origin { origin front.now ≡ origin self.old.front }
        ensures origin { origin self.new.front ≡ origin self.old.front }
        ensures learnt { HasLearnt (list_of self.old.front) (list_of front.now) (list_of self.new.front) }
    {
        if self.front.begins(front) {
            self.front = front.again();
        }
    }
}

impl OpenWindow {
    /// The board, which stands for the list that is seen.
    pub fn board(&self) -> &Board
        ensures { result.now ≡ self.now.reading.part.value }
    {
        self.reading.get()
    }

    /// Ends the read; what was seen stays seen.
    pub fn leave(self) -> Window
        ensures { result.front ≡ self.front }
    {
        let OpenWindow { reading, front } = self;
        Window {
            reader: reading.leave(),
            front,
        }
    }
}
