// The class, from after its bracket.
ghost use Rattle.std.specs.Prelude.{◌≡◌, [], IfOk, MatchResult};
ghost use Rattle.pattern.specs.Cursors.{OnePattern};
ghost use Rattle.notation.specs.Expressions.{Symbol, these, TakesSome};
ghost use Rattle.notation.specs.Grammar.{Class};
ghost use Rattle.notation.specs.ClassAutomaton.{dashed_escape, naming, can_take, can_end};
ghost use Rattle.pattern.specs.declared.member.Progress.TheVariants.{Opened};
ghost use Rattle.pattern.specs.ByteSets.{Holds};
ghost use Rattle.pattern.specs.Members.{so_far, state_of, with_last};
ghost use Rattle.pattern.specs.Classes.{Makes, IsAt, Advances, ClassRead, ClassRefused};

use crate::bytes::ByteSet;
use crate::character::is_escapable;
use crate::cursor::Cursor;
use crate::member::{Member, Progress, Taken};
use crate::spelling::Spelled;
use fault::Fault;
use notation::names::NAMES;

// A class as far as it has been read: whether it is a complement, the bytes of its members that are
// finished, and the member in hand.
#[derive(Clone, Copy)]
pub(crate) struct OpenClass {
    pub(crate) complement: bool,
    pub(crate) members: ByteSet,
    pub(crate) progress: Progress,
}

// Whether the class goes on or ends with the byte.
#[derive(Clone, Copy)]
pub(crate) enum Onward {
    Inside,
    Ended,
}

impl OpenClass {
    fn opened() -> OpenClass
        ensures value { IsAt result (these []) }
        ensures start { result.progress ≡ Opened }
    {
        OpenClass {
            complement: false,
            members: ByteSet::none(),
            progress: Progress::Opened,
        }
    }

    // `None` where the byte cannot stand: a complement whose members leave no byte cannot be mended.
    fn take(&mut self, byte: u8) -> Option<Onward>
        ensures cases { Advances self.old byte result self.new }
    {
        match self.progress.take(byte)? {
            Taken::Complement => {
                self.complement = true;
                Some(Onward::Inside)
            }
            Taken::Inside(finished) => {
                self.add(finished);
                if self.can_end() {
                    Some(Onward::Inside)
                } else {
                    None
                }
            }
            // That it takes a byte was tested before: the member in hand could end.
            Taken::Ended(finished) => {
                self.add(finished);
                Some(Onward::Ended)
            }
        }
    }

    fn add(&mut self, finished: Option<Member>)
        ensures value { (s : Symbol) → Makes self.old s → Makes self.new (with_last s finished) }
        ensures same { self.new.progress ≡ self.old.progress }
    {
        if let Some(member) = finished {
            member.add_to(&mut self.members);
        }
    }

    // With one member more, or with none, the class can still take a byte.
    fn can_take(&self, more: Option<Member>) -> bool
        ensures value { (s : Symbol) → Makes self.now s → result ≡ can_take (with_last s more) }
    {
        if !self.complement {
            return true;
        }
        let mut longer = *self;
        longer.add(more);
        !longer.members.is_full()
    }

    // The member in hand can end so that the class can still take a byte.
    fn can_end(&self) -> bool
        ensures value { (s : Symbol) → Makes self.now s → result ≡ can_end s (state_of self.now.progress) }
    {
        match self.progress {
            Progress::Opened | Progress::Empty | Progress::Between | Progress::Escape =>
                self.can_take(None),
            Progress::Single(first) | Progress::Dash(first) => {
                let member = Member::Range(first, first);
                self.can_take(Some(member))
            }
            Progress::DashEscape(first) => self.escape_can_end(first),
            Progress::Naming(begun) => self.name_can_end(begun),
        }
    }

    fn escape_can_end(&self, first: u8) -> bool
        ensures value { (s : Symbol) → Makes self.now s → result ≡ can_end s (dashed_escape first) }
    {
        for last in first..=255 {
            if is_escapable(last) && self.can_take(Some(Member::Range(first, last))) {
                return true;
            }
        }
        false
    }

    fn name_can_end(&self, begun: Spelled) -> bool
        ensures value { (s : Symbol) → Makes self.now s → result ≡ can_end s (naming (so_far begun)) }
    {
        for name in NAMES {
            if begun.begins(name) && self.can_take(Some(Member::Name(name))) {
                return true;
            }
        }
        false
    }

    fn bytes(&self) -> ByteSet
        ensures value { (s : Symbol) → Makes self.now s → Holds result s }
    {
        if self.complement {
            self.members.others()
        } else {
            self.members
        }
    }
}

// Where the bracket stands that ends the class.
pub(crate) fn end(from: Cursor) -> Result<Cursor, Fault>
    ensures cases { MatchResult result (λ end. ClassRead from.entry.pattern.now from.entry.at end.at) (λ f. ClassRefused from.entry.pattern.now from.entry.at f) }
    ensures same { IfOk result (λ end. OnePattern from.entry end) }
{
    let mut here = from;
    let mut class = OpenClass::opened();
    loop {
        match class.take(here.byte()?).ok_or(here.refuse())? {
            Onward::Inside => here = here.next(),
            Onward::Ended => return Ok(here),
        }
    }
}

// The bytes that a class takes, from what stands between its brackets. Each byte can stand where it is;
// the bracket that follows them finishes the last member.
pub(crate) fn bytes(inside: &[u8]) -> ByteSet
    ensures value { (s : Symbol) → Class inside.now s → TakesSome s → Holds result s }
{
    let mut class = OpenClass::opened();
    for byte in inside {
        class.take(*byte);
    }
    class.take(b']');
    class.bytes()
}
