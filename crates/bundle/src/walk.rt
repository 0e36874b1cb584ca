// The strips of a bundle, handed out one by one.
ghost use Rattle.std.specs.Prelude.{IfSome};
ghost use Rattle.std.specs.Iterator.{YieldsFirstBy, item_count};
ghost use Rattle.bundle.specs.Handed.{piece, left, Short};

use crate::bytes;

#[derive(Clone, Copy, PartialEq, Eq, Debug)]
pub struct Strip<'a> {
    pub slot: u8,
    pub text: &'a [u8],
}

// The strips that are still to come, as they lie in a bundle: a byte for each slot, two for each
// length, and the texts in one run.
#[derive(Clone, Copy)]
pub struct Strips<'a> {
    pub(crate) slots: &'a [u8],
    pub(crate) lengths: &'a [u8],
    pub(crate) texts: &'a [u8],
}

impl<'a> Iterator for Strips<'a> {
    type Item = Strip<'a>;

    ghost next_gives = { λ s r t. YieldsFirstBy piece left s r t × IfSome r Short };

    ghost remaining = { item_count left };

    fn next(&mut self) -> Option<Strip<'a>> {
        let Strips {
            slots,
            lengths,
            texts,
        } = *self;
        let (slot, slots) = slots.split_first()?;
        let (text, texts) = bytes::part(texts, bytes::word(lengths, 0));
        let (_, lengths) = bytes::part(lengths, 2);
        *self = Strips {
            slots,
            lengths,
            texts,
        };
        Some(Strip { slot: *slot, text })
    }
}
