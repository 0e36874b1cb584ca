// The bytes that a place takes.
ghost use Rattle.std.specs.Prelude.{◌≡◌, ℕ, ◌<◌, ◌↔◌, MatchOption, slice_index};
ghost use Rattle.notation.specs.Expressions.{Symbol, TakesSome};
ghost use Rattle.pattern.specs.ByteSets.{Has as HasByte, Holds};
ghost use Rattle.machines.specs.Place.Letters.{LettersOf, SomeLetters};
ghost use Rattle.relations.specs.Masks.{Has};

use pattern::bytes::ByteSet;
use relations::masks::{only, single};
use relations::placeno::PlaceNo;
use std::array;

// Place 1 takes the bytes in the set.
fn rows(bytes: &ByteSet) -> [u64; 256]
    ensures members { (c p : ℕ) → c < 256 → Has (slice_index result c) p ↔ ((p ≡ 1) × HasByte bytes.now c) }
{
    let place = single(PlaceNo::nth(1));
    array::from_fn(|c| only(place, bytes.has(c as u8)))
}

// Row c has place 1 if byte c is taken: at least one is.
#[derive(Clone, Copy)]
pub(crate) struct Letters {
    pub(crate) takes: [u64; 256],
    ghost some: { SomeLetters takes },
}

impl Letters {
    // The bytes in the set, or `None` where it has none.
    pub(crate) fn of(bytes: &ByteSet) -> Option<Letters>
        ensures value { (s : Symbol) → Holds bytes.now s → MatchOption result (TakesSome s → ⊥) (λ l. LettersOf s l.takes) }
    {
        for byte in 0..=255 {
            if bytes.has(byte) {
                return Some(Letters { takes: rows(bytes) });
            }
        }
        None
    }
}
