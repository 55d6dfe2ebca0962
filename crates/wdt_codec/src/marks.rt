//! Marks of several lanes.
ghost use Rattle.std.specs.Prelude.{◌≡◌, ◌<◌, ◌≤◌, ◌^◌, [], ◌∷◌, ◌++◌, length};
ghost use Rattle.wdt_codec.specs.Frames.{marks_from, marks_at};
ghost use Rattle.wdt_codec.specs.Reading.{Answers};

use crate::counts::read_mark;
use crate::frames::Mark;
use crate::numbers::number;
use crate::stop::Stop;
use arrayvec::ArrayVec;
use std::marker::Model;
use wdt_units::Lane;

/// At most 15 marks, seen as the list of them. Takes no memory.
#[derive(Debug, Drop)]
pub struct Marks {
    marks: ArrayVec<Mark, 15>,
}

impl Model for Marks {
    ghost use Rattle.std.specs.Prelude.{List};
    ghost use Rattle.wdt_codec.specs.declared.frames.Mark.{Mark as AMark};

    ghost Value = { List AMark };

    ghost view = { λ m. m.marks.items };

    ghost invariant = { λ _. Unit {0} };
}

impl Default for Mark {
    fn default() -> Mark {
        Mark {
            lane: Lane(0),
            count: 0,
        }
    }
}

impl Marks {
    /// No marks.
    pub fn none() -> Marks
        ensures { result ≡ [] }
    {
        Marks {
            marks: ArrayVec::new(),
        }
    }

    /// Adds a mark behind the others, of which there are fewer than 15.
    pub fn push(&mut self, mark: Mark)
        requires { length self.old < 15 }
        ensures { self.new ≡ self.old ++ mark ∷ [] }
    {
        self.marks.push(mark);
    }

    /// The marks, in their order.
    pub fn items(&self) -> &[Mark]
        ensures value { result.now ≡ self.now }
        ensures few { length result.now ≤ 15 }
    {
        &self.marks
    }
}

/// The marks of an ErrMarks.
#[tactic(auto, unfolding(crate::specs::Frames::marks_at))]
pub fn read_marks(bytes: &[u8]) -> Result<(Marks, &[u8]), Stop>
    ensures { Answers (λ x. (x.0, x.1.now)) result (marks_at bytes.now) }
{
    let (count, rest) = number(bytes, 1, 1, 15)?;
    marks_from(rest, count as u8)
}

fn marks_from(bytes: &[u8], count: u8) -> Result<(Marks, &[u8]), Stop>
    requires { count ≤ 15 }
    ensures { Answers (λ x. (x.0, x.1.now)) result (marks_from count 0 bytes.now) }
{
    let mut marks = Marks::none();
    let mut rest = bytes;
    let mut low = 0;
    for k in 0..count {
        // Each leaves room for the lanes of those behind it.
        let (mark, after) = read_mark(rest, low, 15 - (count - 1 - k))?;
        low = mark.lane.0 + 1;
        marks.push(mark);
        rest = after;
    }
    Ok((marks, rest))
}
