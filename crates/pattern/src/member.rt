// The members of a class, byte by byte: the state and the next byte together decide.
ghost use Rattle.std.specs.Prelude.{◌≡◌, ◌<◌, List, [], ◌∷◌, ◌++◌, length};
ghost use Rattle.notation.specs.Characters.{class_kind};
ghost use Rattle.notation.specs.Expressions.{Range, Symbol, these};
ghost use Rattle.notation.specs.ClassAutomaton.{begins_member, spelling, spelled, ranges_in};
ghost use Rattle.pattern.specs.ByteSets.{Holds};
ghost use Rattle.pattern.specs.Members.{so_far, ranges_of, with_last, Moves, Follows};

use crate::bytes::ByteSet;
use crate::character::{is_escapable, is_itself};
use crate::spelling::Spelled;
use notation::names::Name;

#[derive(Clone, Copy)]
pub enum Member {
    Range(u8, u8),
    Name(Name),
}

impl Member {
    pub(crate) fn add_to(self, bytes: &mut ByteSet)
        ensures value { (rs : List Range) → Holds bytes.old (these rs) → Holds bytes.new (these (rs ++ ranges_of self)) }
    {
        match self {
            Member::Range(low, high) => bytes.add_range(low, high),
            Member::Name(name) => bytes.add_named(name),
        }
    }
}

// How far the member in hand has come; a byte that is kept is the member's first.
#[derive(Clone, Copy)]
pub enum Progress {
    // Just after the bracket: only here `^` makes the class a complement.
    Opened,
    // After that `^`, with no member yet.
    Empty,
    Between,
    Single(u8),
    Dash(u8),
    Escape,
    DashEscape(u8),
    Naming(Spelled),
}

// What a byte does that can stand where it is: the class becomes a complement, goes on, or ends. Either
// of the last two can finish a member.
#[derive(Clone, Copy)]
pub enum Taken {
    Complement,
    Inside(Option<Member>),
    Ended(Option<Member>),
}

impl Progress {
    fn go(&mut self, next: Progress, taken: Taken) -> Option<Taken>
        ensures value { result ≡ Some taken }
        ensures left { self.new ≡ next }
    {
        *self = next;
        Some(taken)
    }

    // Where a member can begin, once `finished` has ended.
    fn begin(&mut self, byte: u8, finished: Option<Member>) -> Option<Taken>
        ensures cases { (s : Symbol) → (byte ≡ 93 → 0 < length (ranges_in (with_last s finished))) → Moves s result (begins_member (class_kind byte) byte (with_last s finished)) self.new }
    {
        match byte as char {
            ']' => Some(Taken::Ended(finished)),
            '\\' => self.go(Progress::Escape, Taken::Inside(finished)),
            '[' => self.go(Progress::Naming(Spelled::begun()), Taken::Inside(finished)),
            _ if is_itself(byte) => self.go(Progress::Single(byte), Taken::Inside(finished)),
            _ => None,
        }
    }

    fn spell(&mut self, begun: Spelled, byte: u8) -> Option<Taken>
        ensures cases { (s : Symbol) → let w = so_far begun ++ byte ∷ [] in Moves s result (spelled (spelling w) s w) self.new }
    {
        let spelled = begun.then(byte)?;
        match spelled.whole() {
            Some(name) => self.go(Progress::Between, Taken::Inside(Some(Member::Name(name)))),
            None => self.go(Progress::Naming(spelled), Taken::Inside(None)),
        }
    }

    // `None` where the byte cannot stand.
    pub(crate) fn take(&mut self, byte: u8) -> Option<Taken>
        ensures cases { Follows self.old byte result self.new }
    {
        match (*self, byte as char) {
            (Progress::Opened, '^') => self.go(Progress::Empty, Taken::Complement),
            (Progress::Opened | Progress::Empty, ']') => None,
            (Progress::Opened | Progress::Empty | Progress::Between, _) => self.begin(byte, None),
            (Progress::Single(first), '-') => self.go(Progress::Dash(first), Taken::Inside(None)),
            (Progress::Single(first), _) => self.begin(byte, Some(Member::Range(first, first))),
            (Progress::Dash(first), '\\') => self.go(
                Progress::DashEscape(first),
                Taken::Inside(None),
            ),
            (Progress::Dash(first), _) if first <= byte && is_itself(byte) => self.go(
                Progress::Between,
                Taken::Inside(Some(Member::Range(first, byte))),
            ),
            (Progress::Escape, _) if is_escapable(byte) => self.go(
                Progress::Single(byte),
                Taken::Inside(None),
            ),
            (Progress::DashEscape(first), _) if first <= byte && is_escapable(byte) => self.go(
                Progress::Between,
                Taken::Inside(Some(Member::Range(first, byte))),
            ),
            (Progress::Naming(begun), _) => self.spell(begun, byte),
            _ => None,
        }
    }
}
