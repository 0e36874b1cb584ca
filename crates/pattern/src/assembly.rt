// What a pattern is put together as while it is read: the reader asks for each part, in the field's
// words for the operations of an algebra of expressions.
ghost use Rattle.std.specs.Prelude.{◌≤◌};
ghost use Rattle.notation.specs.Expressions.{Symbol, TakesSome, Regex, byte as byte_of, any as any_of, one, empty, seq, alt, star as star_of, plus as plus_of, opt, counted as counted_of};
ghost use Rattle.pattern.specs.ByteSets.{Holds};

use crate::bytes::ByteSet;

pub trait Assembly: Copy {
    // The expressions that a part can be taken for.
    ghost stands: { Self → Regex → Type 0 };

    fn nothing() -> Self
        ensures value { stands result empty };

    fn byte(b: u8) -> Self
        ensures value { stands result (one (byte_of b)) };

    fn any() -> Self
        ensures value { stands result (one any_of) };

    // A class, by the bytes that it takes.
    fn class(bytes: &ByteSet) -> Self
        ensures value { (s : Symbol) → TakesSome s → Holds bytes.now s → stands result (one s) };

    fn then(&self, second: &Self) -> Self
        ensures value { (e f : Regex) → stands self.now e → stands second.now f → stands result (seq e f) };

    fn either(&self, other: &Self) -> Self
        ensures value { (e f : Regex) → stands self.now e → stands other.now f → stands result (alt e f) };

    fn star(&self) -> Self
        ensures value { (e : Regex) → stands self.now e → stands result (star_of e) };

    fn plus(&self) -> Self
        ensures value { (e : Regex) → stands self.now e → stands result (plus_of e) };

    fn optional(&self) -> Self
        ensures value { (e : Regex) → stands self.now e → stands result (opt e) };

    fn counted(&self, least: u8, most: u8) -> Self
        ensures value { (e : Regex) → least ≤ most → stands self.now e → stands result (counted_of least most e) };
}
