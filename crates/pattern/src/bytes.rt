// Sets of bytes: what a class takes.
ghost use Rattle.std.specs.Prelude.{◌≡◌, ℕ, ◌<◌, false, List, [], ◌∷◌, ◌++◌, IsTrue, ◌↔◌, slice_index_or};
ghost use Rattle.notation.specs.Expressions.{Range, these, others};
ghost use Rattle.notation.specs.Names.{ranges};
ghost use Rattle.pattern.specs.ByteSets.{Has, Holds};

use notation::names::Name;

#[derive(Clone, Copy)]
pub struct ByteSet {
    pub(crate) has: [bool; 256],
}

impl ByteSet {
    pub(crate) fn none() -> ByteSet
        ensures value { Holds result (these []) }
    {
        ByteSet { has: [false; 256] }
    }

    // From `low` to `high`, both included.
    pub fn range(low: u8, high: u8) -> ByteSet
        ensures value { Holds result (these ((low, high) ∷ [])) }
    {
        let mut set = ByteSet::none();
        set.add_range(low, high);
        set
    }

    // The bytes from `low` to `high` as well.
    pub(crate) fn add_range(&mut self, low: u8, high: u8)
        ensures value { (rs : List Range) → Holds self.old (these rs) → Holds self.new (these (rs ++ (low, high) ∷ [])) }
    {
        for each in low..=high {
            self.has[usize::from(each)] = true;
        }
    }

    pub(crate) fn add_named(&mut self, name: Name)
        ensures value { (rs : List Range) → Holds self.old (these rs) → Holds self.new (these (rs ++ ranges name)) }
    {
        let table = name.table();
        for (byte, has) in self.has.iter_mut().enumerate() {
            *has |= table[byte] == 1;
        }
    }

    // Every byte that is not in the set.
    pub(crate) fn others(&self) -> ByteSet
        ensures value { (rs : List Range) → Holds self.now (these rs) → Holds result (others rs) }
    {
        let mut set = ByteSet::none();
        for (byte, has) in set.has.iter_mut().enumerate() {
            *has = !self.has[byte];
        }
        set
    }

    pub(crate) fn is_full(&self) -> bool
        ensures value { IsTrue result ↔ ((c : ℕ) → c < 256 → Has self.now c) }
    {
        self.has.iter().all(|has| *has)
    }

    pub fn has(&self, byte: u8) -> bool
        ensures value { result ≡ slice_index_or self.now.has byte false }
    {
        self.has[usize::from(byte)]
    }
}
