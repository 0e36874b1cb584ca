// The pattern reader: it follows the signs of a pattern and puts their parts together. A group is
// read by the reader itself, with one level less left to nest. That depth is no part of a cursor: it
// goes with one through these three functions alone.
ghost use Rattle.std.specs.Prelude.{IfOk, IfSome, MatchResult};
ghost use Rattle.pattern.specs.Cursors.{OnePattern, Stands};
ghost use Rattle.pattern.specs.Drafts.{Keeps};
ghost use Rattle.pattern.specs.Walks.{Stepped, StepStops, GroupOf, GroupStops, AlternativesOf, AlternativesStop};

use crate::assembly::Assembly;
use crate::cursor::Cursor;
use crate::draft::Draft;
use crate::sign::{Sign, sign_at};
use fault::Fault;

#[cycle(alternatives_group_step)]
fn group<T: Assembly>(from: Cursor, depth: u8) -> Result<(Cursor, T), Fault>
    requires paren { Stands from 40 }
    ensures cases { MatchResult result (GroupOf T.Assembly.stands from.entry depth) (GroupStops from.entry.pattern.now from.entry.at depth) }
    ensures same { IfOk result (λ o. OnePattern from.entry o.0) }
{
    if depth == 0 {
        return Err(from.refuse());
    }
    let (end, part) = alternatives(from.next(), depth - 1)?;
    // The alternatives end at a closing parenthesis, or where the pattern does.
    end.byte()?;
    Ok((end.next(), part))
}

// The draft with the sign or the group that stands at `from`; `None` where the alternatives end.
#[cycle(alternatives_group_step)]
fn step<'a, T: Assembly>(
    from: Cursor<'a>,
    depth: u8,
    draft: &Draft<T>,
) -> Result<Option<(Cursor<'a>, Draft<T>)>, Fault>
    ensures cases { MatchResult result (Stepped T.Assembly.stands from.entry depth draft.now) (StepStops from.entry.pattern.now from.entry.at depth (Keeps T.Assembly.stands draft.now)) }
    ensures same { IfOk result (λ o. IfSome o (λ x. OnePattern from.entry x.0)) }
{
    let sign = sign_at(from.pattern, from.at, draft.last.is_some())?;
    match sign {
        Sign::End | Sign::Close(_) => Ok(None),
        Sign::Open(_) => {
            let (end, part) = group(from, depth)?;
            Ok(Some((end, draft.atom(part))))
        }
        _ => Ok(Some((from.skip(sign.len()), draft.with(sign)))),
    }
}

// Where the alternatives that begin at `from` end, and what they were put together as.
#[cycle(alternatives_group_step)]
pub(crate) fn alternatives<T: Assembly>(from: Cursor, depth: u8) -> Result<(Cursor, T), Fault>
    ensures cases { MatchResult result (AlternativesOf T.Assembly.stands from.entry depth) (AlternativesStop from.entry.pattern.now from.entry.at depth) }
    ensures same { IfOk result (λ o. OnePattern from.entry o.0) }
{
    let mut here = from;
    let mut draft = Draft::new();
    while let Some((next, more)) = step(here, depth, &draft)? {
        here = next;
        draft = more;
    }
    Ok((here, draft.closed()))
}
