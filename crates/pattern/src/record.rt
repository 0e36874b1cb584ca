// The pattern record, which is lent to be read into. It always holds a pattern that was granted,
// at first the empty one; `bytes` and `assemble` say so to their callers.
ghost use Rattle.std.specs.Prelude.{◌≡◌, [], is_ok, Decides, MatchResult};
ghost use Rattle.notation.specs.Expressions.{Regex};
ghost use Rattle.notation.specs.Grammar.{Written, deepest, OneReading};
ghost use Rattle.notation.specs.Reading.{Readable, Granted, Refused};

use crate::assembly::Assembly;
use crate::reading::{assemble, places};
use arrayvec::ArrayVec;
use fault::Fault;
use std::marker::Model;

#[derive(Drop)]
pub struct Pattern {
    bytes: ArrayVec<u8, 256>,
}

impl Model for Pattern {
    ghost use Rattle.std.specs.Prelude.{ℕ, List};
    ghost use Rattle.notation.specs.Reading.{Readable};

    ghost Value = { List ℕ };

    ghost view = { λ p. p.bytes.items };

    ghost invariant = { λ p. Readable p.bytes.items };
}

impl Pattern {
    pub fn new() -> Pattern
        ensures held { result ≡ [] }
    {
        Pattern {
            bytes: ArrayVec::new(),
        }
    }

    pub fn bytes(&self) -> &[u8]
        ensures value { result.now ≡ self.now }
        ensures granted { Readable self.now }
    {
        self.bytes.as_slice()
    }

    // What the pattern is put together as.
    pub fn assemble<T: Assembly>(&self) -> T
        ensures value { (e : Regex) → Written deepest self.now e → T.Assembly.stands result e }
        ensures granted { Readable self.now }
    {
        assemble(self.bytes()).unwrap()
    }

    // The number of places.
    pub fn read(&mut self, bytes: &[u8]) -> Result<u8, Fault>
        ensures cases { MatchResult result (λ n. Granted bytes.now n × (self.new ≡ bytes.now)) (λ f. Refused bytes.now f × (self.new ≡ [])) }
        ensures one_reading { OneReading }
        ensures exactly { Decides (is_ok result) (Readable bytes.now) }
    {
        *self = Pattern::new();
        let count = places(bytes)?;
        *self = Pattern {
            bytes: ArrayVec::try_from(bytes).unwrap(),
        };
        Ok(count)
    }
}
