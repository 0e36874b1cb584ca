// The part of a machine that stands for a part of a pattern. Parts are values, so that repeats
// within repeats cost a few joins each and not their product.
ghost use Rattle.std.specs.Prelude.{◌≤◌};
ghost use Rattle.machines.specs.Place.Fragments.{Part};

use crate::place::letters::Letters;
use crate::place::tables::Tables;
use pattern::assembly::Assembly;
use pattern::bytes::ByteSet;

const MOST_PLACES: u8 = 63;

// The tables of the part alone, its places numbered from 1. The count is no length of theirs: they
// have a row for each state and byte that there can be.
#[derive(Clone, Copy)]
pub(crate) struct Numbered {
    pub(crate) tables: Tables,
    count: u8,
    ghost small: { count ≤ 63 },
    ghost part: { Part tables count },
}

// None past 63 places: only a count of 0 makes a part of that again.
#[derive(Clone, Copy)]
pub struct Fragment {
    pub(crate) part: Option<Numbered>,
}

impl Fragment {
    ghost use Rattle.std.specs.Fn.{FnOnceReturnsAt, FnOnceReturnsAtPair};
    ghost use Rattle.notation.specs.Expressions.{Regex, Symbol, TakesSome, one};
    ghost use Rattle.machines.specs.Place.Letters.{LettersOf};
    ghost use Rattle.machines.specs.Place.Making.{Changes, ChangesSome, Combines, CombinesSome};
    ghost use Rattle.machines.specs.Place.Spellings.{copies};
    ghost use Rattle.machines.specs.Place.Standing.{StandsFor};

    // One place.
    fn place(letters: &Letters) -> Fragment
        ensures value { (s : Symbol) → TakesSome s → LettersOf s letters.now.takes → StandsFor (one s) result.part }
    {
        Fragment {
            part: Some(Numbered {
                tables: Tables::place(letters.takes),
                count: 1,
            }),
        }
    }

    // This alone, its tables changed by the operation. Here and below `make` is bound in the clauses,
    // since a call that passes a closure and picks a ghost value gets no proof yet.
    fn changed<F: FnOnce(&Tables) -> Tables + Drop>(&self, operation: F) -> Option<Numbered>
        requires callable { F.IsAlwaysCallable operation }
        requires makes { ChangesSome (FnOnceReturnsAt F.FnOnce operation) }
        ensures value { (make : Regex → Regex) → Changes make (FnOnceReturnsAt F.FnOnce operation) → (e : Regex) → StandsFor e self.now.part → StandsFor (make e) result }
    {
        let own = self.part.as_ref()?;
        Some(Numbered {
            tables: operation(&own.tables),
            count: own.count,
        })
    }

    // This and `second` by the operation, the places of `second` numbered after those of this.
    fn combined<F: FnOnce(&Tables, &Tables) -> Tables + Drop>(
        &self,
        second: &Fragment,
        operation: F,
    ) -> Option<Numbered>
        requires callable { F.IsAlwaysCallable operation }
        requires makes { CombinesSome (FnOnceReturnsAtPair F.FnOnce operation) }
        ensures value { (make : Regex → Regex → Regex) → Combines make (FnOnceReturnsAtPair F.FnOnce operation) → (e f : Regex) → StandsFor e self.now.part → StandsFor f second.now.part → StandsFor (make e f) result }
    {
        let own = self.part.as_ref()?;
        let other = second.part.as_ref()?;
        let count = own.count + other.count;
        if count > MOST_PLACES {
            return None;
        }
        Some(Numbered {
            tables: operation(&own.tables, &other.tables.later(usize::from(own.count))),
            count,
        })
    }

    // So many copies, one after the other.
    fn repeated(&self, times: u8) -> Fragment
        ensures value { (e : Regex) → StandsFor e self.now.part → StandsFor (copies times e) result.part }
    {
        let mut all = Fragment::nothing();
        for _ in 0..times {
            all = self.then(&all);
        }
        all
    }
}

impl Assembly for Fragment {
    ghost use Rattle.machines.specs.Place.Standing.{StandsFor};

    ghost stands = { λ f e. StandsFor e f.part };

    fn nothing() -> Fragment {
        Fragment {
            part: Some(Numbered {
                tables: Tables::nothing(),
                count: 0,
            }),
        }
    }

    fn byte(b: u8) -> Fragment {
        Fragment::class(&ByteSet::range(b, b))
    }

    fn any() -> Fragment {
        Fragment::class(&ByteSet::range(0, 255))
    }

    fn class(bytes: &ByteSet) -> Fragment {
        match Letters::of(bytes) {
            Some(letters) => Fragment::place(&letters),
            // Every class that is read takes some byte.
            None => Fragment::nothing(),
        }
    }

    fn then(&self, second: &Fragment) -> Fragment {
        Fragment {
            part: self.combined(second, Tables::then),
        }
    }

    fn either(&self, other: &Fragment) -> Fragment {
        Fragment {
            part: self.combined(other, Tables::either),
        }
    }

    fn star(&self) -> Fragment {
        Fragment {
            part: self.changed(Tables::star),
        }
    }

    fn plus(&self) -> Fragment {
        self.then(&self.star())
    }

    fn optional(&self) -> Fragment {
        Fragment {
            part: self.changed(Tables::optional),
        }
    }

    fn counted(&self, least: u8, most: u8) -> Fragment {
        let spare = self.optional().repeated(most.saturating_sub(least));
        self.repeated(least).then(&spare)
    }
}
