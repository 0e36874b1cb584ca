// The reading so far of one run of alternatives.
ghost use Rattle.std.specs.Prelude.{◌≡◌, true, IsSome, is_some};
ghost use Rattle.std.specs.Fn.{FnOnceReturnsAt};
ghost use Rattle.notation.specs.Expressions.{Regex};
ghost use Rattle.notation.specs.Automaton.{ready, opened};
ghost use Rattle.pattern.specs.Drafts.{Keeps, WholeKept, ClosedKept, AtomKept, BarKept, RepeatKept, Repeats, Grows};
ghost use Rattle.pattern.specs.Signs.{text, Formed, is_inner};

use crate::assembly::Assembly;
use crate::sign::Sign;
use crate::{class, repeat};

// The finished branches, where there are any; the branch so far; and the atom after it, where it
// can still be repeated.
#[derive(Clone, Copy)]
pub struct Draft<T> {
    pub(crate) earlier: Option<T>,
    pub(crate) branch: T,
    pub(crate) last: Option<T>,
}

impl<T: Assembly> Draft<T> {
    pub(crate) fn new() -> Draft<T>
        ensures value { Keeps T.Assembly.stands result ready opened }
    {
        Draft {
            earlier: None,
            branch: T::nothing(),
            last: None,
        }
    }

    // The branch with the atom in hand.
    fn whole(&self) -> T
        ensures value { WholeKept T.Assembly.stands self.now result }
    {
        match &self.last {
            Some(atom) => self.branch.then(atom),
            None => self.branch,
        }
    }

    pub(crate) fn closed(&self) -> T
        ensures value { ClosedKept (Keeps T.Assembly.stands self.now) (T.Assembly.stands result) }
    {
        let branch = self.whole();
        match &self.earlier {
            Some(earlier) => earlier.either(&branch),
            None => branch,
        }
    }

    pub(crate) fn atom(&self, part: T) -> Draft<T>
        ensures value { (e : Regex) → T.Assembly.stands part e → AtomKept (Keeps T.Assembly.stands self.now) (Keeps T.Assembly.stands result) e }
    {
        Draft {
            earlier: self.earlier,
            branch: self.whole(),
            last: Some(part),
        }
    }

    pub(crate) fn bar(&self) -> Draft<T>
        ensures value { BarKept (Keeps T.Assembly.stands self.now) (Keeps T.Assembly.stands result) }
    {
        Draft {
            earlier: Some(self.closed()),
            branch: T::nothing(),
            last: None,
        }
    }

    // What `repeat` makes of the atom in hand joins the branch.
    pub(crate) fn repeated<F: FnOnce(&T) -> T>(&self, repeat: F) -> Draft<T>
        requires atom { IsSome self.now.last }
        requires callable { F.IsAlwaysCallable repeat }
        ensures value { (g : Regex → Regex) → Repeats T.Assembly.stands (FnOnceReturnsAt F.FnOnce repeat) g → RepeatKept (Keeps T.Assembly.stands self.now) (Keeps T.Assembly.stands result) g }
    {
        let atom = self.last.unwrap();
        Draft {
            earlier: self.earlier,
            branch: self.branch.then(&repeat(&atom)),
            last: None,
        }
    }

    // The draft once `sign` has been read. The reader sees to the parentheses and the end itself.
    // Inlined, what this takes of the stack would be taken again at each level of parentheses.
    #[inline(never)]
    pub(crate) fn with(&self, sign: Sign) -> Draft<T>
        requires formed { Formed (is_some self.now.last) sign }
        requires inner { is_inner sign ≡ true }
        ensures value { Grows (Keeps T.Assembly.stands self.now) (Keeps T.Assembly.stands result) (is_some self.now.last) (text sign.entry) }
    {
        match sign {
            Sign::Plain(t) => self.atom(T::byte(t[0])),
            Sign::Escape(t) => self.atom(T::byte(t[1])),
            Sign::Any(_) => self.atom(T::any()),
            Sign::Class(inside) => self.atom(T::class(&class::bytes(inside))),
            Sign::Bar(_) => self.bar(),
            Sign::Star(_) => self.repeated(|atom| atom.star()),
            Sign::Plus(_) => self.repeated(|atom| atom.plus()),
            Sign::Question(_) => self.repeated(|atom| atom.optional()),
            Sign::Counted(t) => {
                let (least, most) = repeat::pair(t);
                self.repeated(|atom| atom.counted(least, most))
            }
            Sign::Open(_) | Sign::Close(_) | Sign::End => *self,
        }
    }
}
