// Names, byte by byte: several begin alike, and which one it is shows only later.
ghost use Rattle.std.specs.Prelude.{◌≡◌, ◌≤◌, false, [], ◌∷◌, ◌++◌, length, nat_eq, MatchOption};
ghost use Rattle.notation.specs.Names.{written};
ghost use Rattle.notation.specs.ClassAutomaton.{spelling};

use notation::names::{NAMES, Name};

// So many bytes of how a name is written; other names may begin with them too.
#[derive(Clone, Copy)]
pub struct Spelled {
    pub(crate) name: Name,
    pub(crate) len: usize,
    ghost within: { len ≤ length (written name) },
}

impl Spelled {
    ghost use Rattle.std.specs.List.{starts_with};
    ghost use Rattle.pattern.specs.Members.{so_far, some_begins};

    // The bracket that begins a name; any name does, as all begin so.
    pub(crate) fn begun() -> Spelled
        ensures value { so_far result ≡ 91 ∷ [] }
    {
        Spelled {
            name: Name::Alpha,
            len: 1,
        }
    }

    fn bytes(self) -> &'static [u8]
        ensures value { result.now ≡ so_far self }
    {
        &self.name.written()[..self.len]
    }

    // A name that goes on with `byte`, with one byte more of it.
    pub(crate) fn then(self, byte: u8) -> Option<Spelled>
        ensures cases { MatchOption result (some_begins (so_far self ++ byte ∷ []) ≡ false) (λ s. so_far s ≡ so_far self ++ byte ∷ []) }
    {
        for name in NAMES {
            let written = name.written();
            if written.starts_with(self.bytes()) && written.get(self.len) == Some(&byte) {
                return Some(Spelled {
                    name,
                    len: self.len + 1,
                });
            }
        }
        None
    }

    // The name, where it is whole.
    pub(crate) fn whole(self) -> Option<Name>
        ensures value { result ≡ spelling (so_far self) }
    {
        if self.len == self.name.written().len() {
            Some(self.name)
        } else {
            None
        }
    }

    pub(crate) fn begins(self, name: Name) -> bool
        ensures value { result ≡ starts_with nat_eq (written name) (so_far self) }
    {
        name.written().starts_with(self.bytes())
    }
}
