// Reads the lines of a source piece by piece, in a buffer of one size.
ghost use Rattle.std.specs.Prelude.{◌≡◌, ℕ, ◌+◌, ◌<◌, ◌≤◌, ◌≢◌, ◌⊎◌, List, [], length, take, drop, slice_index, false, IfOk, MatchResult};
ghost use Rattle.base_text.specs.Parts.{Lacks};
ghost use Rattle.ports.specs.Causes.{Rose};
ghost use Rattle.request_text.specs.Windows.{items};
ghost use Rattle.request_text.specs.declared.line_reader.TheConstants.{LONGEST_LINE, MOST_BEFORE_FEED, MOST_TAKEN};
ghost use Rattle.request_text.specs.declared.line_reader.Stage.TheVariants.{Last, Over, Exhausted};

mod feeds;
mod window;

use self::feeds::{first_feed, line_length};
use self::window::{SIZE, Window};
use ports::Source;
use std::alloc::{AllocError, Global};

/// The most bytes of a line that is answered as a text.
pub const LONGEST_LINE: usize = 400;

/// The most bytes that a reader takes.
pub const MOST_TAKEN: u64 = 1 << 40;

/// What a reader answers.
#[derive(Clone, Copy, Debug, PartialEq, Eq)]
pub enum Line {
    /// The next line has so many bytes, at most `LONGEST_LINE`; `LineReader::line` gives it.
    Text(usize),
    /// The next line is longer, and was passed over.
    Long,
    /// The input has ended, and no line is left.
    End,
    /// A read failed. The next call goes on where it failed.
    Fault,
    /// `MOST_TAKEN` bytes were taken with no end seen, and no whole line of them is left.
    Spent,
}

/// A line that a reader told.
#[derive(Clone, Copy, Debug, PartialEq, Eq)]
pub enum Told {
    /// It has so many bytes, at most `LONGEST_LINE`; `LineReader::line` gives it.
    Text(usize),
    /// It is longer, and was passed over.
    Long,
}

/// Why a reader tells no line.
#[derive(Clone, Copy, Debug, PartialEq, Eq)]
pub enum Stop {
    /// A read failed.
    Fault,
    /// `MOST_TAKEN` bytes were taken with no end seen.
    Spent,
}

impl Line {
    ghost use Rattle.std.specs.Prelude.{◌≡◌, MatchResult};
    ghost use Rattle.request_text.specs.LineReading.{line_of, stop_of};

    /// The line that was told, or `None` at the end of the input. It fails if the reader stopped before.
    pub fn told(self) -> Result<Option<Told>, Stop>
        ensures { MatchResult result (λ told. self ≡ line_of told) (λ stop. self ≡ stop_of stop) }
    {
        match self {
            Line::Text(count) => Ok(Some(Told::Text(count))),
            Line::Long => Ok(Some(Told::Long)),
            Line::End => Ok(None),
            Line::Fault => Err(Stop::Fault),
            Line::Spent => Err(Stop::Spent),
        }
    }
}

// The most bytes before the line feed of a line that is a text: one of them may be a carriage return.
const MOST_BEFORE_FEED: usize = LONGEST_LINE + 1;

// How far a reader has come: it may read on, it has answered the last line, it has answered the
// end, or it has taken all that it may take.
#[derive(Clone, Copy)]
enum Stage {
    Open,
    Last,
    Over,
    Exhausted,
}

// What came of reading on.
#[derive(Clone, Copy)]
enum Refilled {
    More,
    AtEnd,
    Failing,
    Full,
}

/// Reads the lines of a source, one a call, in memory that does not grow. A line ends at a line feed, and one
/// carriage return just before that is no part of the line. A last line without a line feed counts if it is
/// not empty, and keeps all its bytes.
#[derive(Drop)]
pub struct LineReader {
    window: Window,
    line: usize,
    answered: usize,
    long: bool,
    taken: u64,
    stage: Stage,
    ghost line_within: { line ≤ length (items window) },
    ghost answered_within: { answered ≤ length (items window) },
    ghost most: { taken ≤ MOST_TAKEN },
    ghost ended: { (stage ≡ Last) ⊎ (stage ≡ Over) → taken < MOST_TAKEN },
    ghost over: { stage ≡ Over → line ≡ 0 },
    ghost exhausted: { stage ≡ Exhausted → (line ≡ 0) × (taken ≡ MOST_TAKEN)
        × ((k : ℕ) → k < length (drop answered (items window)) → slice_index (drop answered (items window)) k ≢ 10) },
}

impl LineReader {
    ghost use Rattle.request_text.specs.Feeds.{IsFirstFeed};
    ghost use Rattle.request_text.specs.LineReading.{answered_line, kept, taken, HasEnded, Sees, Stays, Tells, IsOver, IsSpent, Leaves, Known, advance, ahead};
    ghost use Rattle.request_text.specs.LineSteps.{Refills, Answers, IsReading};

    /// A reader that has taken no byte yet, with all the memory that it needs.
    pub fn new(alloc: Global) -> Result<LineReader, AllocError>
        ensures sees { IfOk result (λ r. (left : List ℕ) → Sees r left left) }
        ensures only { IfOk result (λ r. (left text : List ℕ) → Sees r left text → text ≡ left) }
        ensures told { IfOk result (λ r. answered_line r ≡ []) }
        ensures taken { IfOk result (λ r. taken r ≡ 0) }
        ensures ahead { IfOk result (λ r. ahead r ≡ MOST_TAKEN) }
    {
        let window = Window::new(alloc)?;
        Ok(LineReader {
            window,
            line: 0,
            answered: 0,
            long: false,
            taken: 0,
            stage: Stage::Open,
        })
    }

    /// The line that was answered last, if the last answer was a text. Else no bytes.
    pub fn line(&self) -> &[u8]
        ensures { result.now ≡ answered_line self.now }
    {
        &self.window.as_slice()[..self.line]
    }

    /// Reads the source as far as needed, at most `MOST_TAKEN` bytes of it in all, and answers its next line. After
    /// `End` and `Spent` each call answers the same, and reads nothing.
    pub fn next<S: Source>(&mut self, src: &mut S) -> Line
        ensures tells { Known (S.left src.old) (S.left src.new) (λ left more. Tells self.old left self.new more result) }
        ensures leaves { Leaves self.new result }
        ensures counts { Known (S.left src.old) (S.left src.new)
            (λ left more. taken self.new + length more ≡ taken self.old + length left) }
        ensures grows { taken self.old ≤ taken self.new }
        ensures most { taken self.new ≤ MOST_TAKEN }
        ensures nears { ahead self.new + advance result ≤ ahead self.old }
        ensures faults { S.faults src.old ≤ S.faults src.new }
        ensures cause { result ≡ Line.Fault → Rose (S.faults src.old) (S.faults src.new) }
        ensures stands { result ≢ Line.Fault → S.faults src.new ≡ S.faults src.old }
        ensures buffered { (Lacks 10 (kept self.old) → ⊥) → src.new ≡ src.old }
        ensures over { IsOver self.old → (result ≡ Line.End) × (self.new ≡ self.old) × (src.new ≡ src.old) }
        ensures spent { IsSpent self.old → (result ≡ Line.Spent) × (self.new ≡ self.old) × (src.new ≡ src.old) }
    {
        match self.stage {
            Stage::Over => Line::End,
            Stage::Exhausted => Line::Spent,
            Stage::Last => self.end(),
            Stage::Open => self.read_line(src),
        }
    }

    // Answers the end.
    fn end(&mut self) -> Line
        requires ended { HasEnded self.old.stage }
        ensures end { result ≡ Line.End }
        ensures leaves { Leaves self.new Line.End }
        ensures ahead { ahead self.new ≡ ahead self.old }
        ensures taken { taken self.new ≡ taken self.old }
    {
        self.line = 0;
        self.stage = Stage::Over;
        Line::End
    }

    // Answers the next line, if the reader may read on.
    fn read_line<S: Source>(&mut self, src: &mut S) -> Line
        requires { self.old.stage ≡ Stage.Open }
        ensures tells { Known (S.left src.old) (S.left src.new) (λ left more. Tells self.old left self.new more result) }
        ensures leaves { Leaves self.new result }
        ensures counts { Known (S.left src.old) (S.left src.new)
            (λ left more. taken self.new + length more ≡ taken self.old + length left) }
        ensures grows { taken self.old ≤ taken self.new }
        ensures nears { ahead self.new + advance result ≤ ahead self.old }
        ensures faults { S.faults src.old ≤ S.faults src.new }
        ensures cause { result ≡ Line.Fault → Rose (S.faults src.old) (S.faults src.new) }
        ensures stands { result ≢ Line.Fault → S.faults src.new ≡ S.faults src.old }
        ensures buffered { (Lacks 10 (kept self.old) → ⊥) → src.new ≡ src.old }
    {
        self.pass_answered();
        let mut clean = 0;
        'pieces: loop {
            if let Some(place) = first_feed(self.kept(), clean) {
                return self.cut_line(place);
            }
            self.pass_long();
            clean = self.kept().len();
            match self.refill(src) {
                Refilled::More => {}
                Refilled::AtEnd => return self.last_line(),
                Refilled::Failing => return Line::Fault,
                Refilled::Full => return Line::Spent,
            }
        }
    }

    // The bytes that no answer stands for yet.
    fn kept(&self) -> &[u8]
        ensures { result.now ≡ kept self.now }
    {
        &self.window.as_slice()[self.answered..]
    }

    // Lets go of the bytes that the last answer stands for.
    fn pass_answered(&mut self)
        requires { self.old.stage ≡ Stage.Open }
        ensures reads { IsReading self.new }
        ensures kept { kept self.new ≡ kept self.old }
        ensures long { self.new.long ≡ self.old.long }
        ensures taken { taken self.new ≡ taken self.old }
    {
        self.window.pass(self.answered);
        self.answered = 0;
        self.line = 0;
    }

    // Answers the line that ends before the line feed at this place.
    fn cut_line(&mut self, place: usize) -> Line
        requires reads { IsReading self.old }
        requires feed { IsFirstFeed (kept self.old) place }
        ensures tells { (left : List ℕ) → Tells self.old left self.new left result }
        ensures unfailed { result ≢ Line.Fault }
        ensures leaves { Leaves self.new result }
        ensures nears { ahead self.new + advance result ≤ ahead self.old }
        ensures taken { taken self.new ≡ taken self.old }
    {
        let count = line_length(&self.kept()[..place]);
        self.answer(count, place + 1)
    }

    // Answers the last line, or the end if there is none.
    fn last_line(&mut self) -> Line
        requires reads { IsReading self.old }
        requires unbroken { Lacks 10 (kept self.old) }
        requires below { taken self.old < MOST_TAKEN }
        ensures tells { Tells self.old [] self.new [] result }
        ensures unfailed { result ≢ Line.Fault }
        ensures leaves { Leaves self.new result }
        ensures nears { ahead self.new + advance result ≤ ahead self.old }
        ensures taken { taken self.new ≡ taken self.old }
    {
        let count = self.kept().len();
        self.stage = Stage::Last;
        if count == 0 && !self.long {
            return self.end();
        }
        self.answer(count, count)
    }

    // Answers the line whose last bytes are the first `count` that are kept. The answer stands for the first
    // `through` bytes.
    fn answer(&mut self, count: usize, through: usize) -> Line
        requires ordered { count ≤ through }
        requires within { through ≤ length (kept self.old) }
        requires told { self.old.line ≡ 0 }
        requires fresh { self.old.answered ≡ 0 }
        requires going { self.old.stage ≢ Stage.Exhausted }
        requires first { self.old.stage ≢ Stage.Over }
        ensures answers { Answers self.old count self.new result }
        ensures unfailed { result ≢ Line.Fault }
        ensures leaves { Leaves self.new result }
        ensures kept { kept self.new ≡ drop through (kept self.old) }
        ensures short { self.new.long ≡ false }
        ensures taken { taken self.new ≡ taken self.old }
        ensures stage { self.new.stage ≡ self.old.stage }
    {
        self.answered = through;
        if self.long || count > LONGEST_LINE {
            self.long = false;
            return Line::Long;
        }
        self.line = count;
        Line::Text(count)
    }

    // Lets go of a line that is known to be long.
    fn pass_long(&mut self)
        requires reads { IsReading self.old }
        requires unbroken { Lacks 10 (kept self.old) }
        ensures stays { (left : List ℕ) → Stays self.old left self.new left }
        ensures short { length (kept self.new) ≤ MOST_BEFORE_FEED }
        ensures unbroken { Lacks 10 (kept self.new) }
        ensures reads { IsReading self.new }
        ensures ahead { ahead self.new ≤ ahead self.old }
        ensures taken { taken self.new ≡ taken self.old }
    {
        let count = self.kept().len();
        if self.long || count > MOST_BEFORE_FEED {
            self.long = true;
            self.window.pass(count);
        }
    }

    // Reads behind the bytes that are kept, and notes if no more may be taken.
    fn refill<S: Source>(&mut self, src: &mut S) -> Refilled
        requires reads { IsReading self.old }
        requires short { length (kept self.old) ≤ MOST_BEFORE_FEED }
        requires unbroken { Lacks 10 (kept self.old) }
        ensures came { Refills self.old self.new (S.left src.new) (S.faults src.old) (S.faults src.new) result }
        ensures stays { Known (S.left src.old) (S.left src.new) (λ left more. Stays self.old left self.new more) }
        ensures counts { Known (S.left src.old) (S.left src.new)
            (λ left more. taken self.new + length more ≡ taken self.old + length left) }
        ensures front { take (length (kept self.old)) (kept self.new) ≡ kept self.old }
        ensures within { length (kept self.old) ≤ length (kept self.new) }
        ensures grows { taken self.old ≤ taken self.new }
        ensures ahead { ahead self.new ≡ ahead self.old }
        ensures faults { S.faults src.old ≤ S.faults src.new }
    {
        let allowed = (MOST_TAKEN - self.taken).min(SIZE as u64) as usize;
        if allowed == 0 {
            self.stage = Stage::Exhausted;
            return Refilled::Full;
        }
        match self.window.read(src, allowed) {
            Err(_) => Refilled::Failing,
            Ok(0) => Refilled::AtEnd,
            Ok(count) => {
                self.taken += count as u64;
                Refilled::More
            }
        }
    }
}
