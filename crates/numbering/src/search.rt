// The search that numbers the points of a space.
ghost use Rattle.std.specs.Prelude.{◌≡◌, ℕ, ◌+◌, ◌*◌, ◌/◌, ◌<◌, ◌≤◌, ◌⊎◌, List, length, map, take, Contains, MatchOption};
ghost use Rattle.numbering.specs.Filling.{Fills, Fit};
ghost use Rattle.numbering.specs.Laws.{NumberingLaws};
ghost use Rattle.numbering.specs.Reaching.{MoreThan};
ghost use Rattle.numbering.specs.Searching.{Likes, Progress, Reading, MeetsIn};

use crate::entry::Entry;
use crate::space::{Point, Space};

// How many points are reached, or none where more are than there is room for; the points and their
// moves are left in the two tables. What the tables hold where there is none, and what is answered
// where they do not fit one another, is open.
pub fn number<P: Point, S: Space<P>, E: Entry>(
    space: &S,
    cells: &mut [P::Cell],
    moves: &mut [E],
) -> Option<usize>
    ensures outcome { Fit E.limit (P.kept cells.old) (map E.number moves.old)
        → MatchOption result (MoreThan (length (P.kept cells.old)) (S.first space.now) (S.next space.now))
        (λ n. Fills (S.first space.now) (S.next space.now) n (P.kept cells.old) (P.kept cells.new) (map E.number moves.old) (map E.number moves.new)) }
    ensures laws { NumberingLaws (S.first space.now) (S.next space.now) }
{
    let room = moves.len() / 256;
    let (_, met) = meet(&space.first(), cells, 0, room)?;
    let mut count = met;
    let likes = likes(space);
    let mut row = 0;
    while row < count {
        count = read(space, &likes, cells, moves, row, count)?;
        row += 1;
    }
    Some(count)
}

// Meets the points that the bytes lead to from the point of this row; answers how many are met now.
// A byte like an earlier one leads where that one leads, so only the first of each kind is looked up.
fn read<P: Point, S: Space<P>, E: Entry>(
    space: &S,
    likes: &[u8; 256],
    cells: &mut [P::Cell],
    moves: &mut [E],
    row: usize,
    count: usize,
) -> Option<usize>
    requires likes { Likes (S.next space.now) 256 likes.now }
    requires row { row < count }
    requires count { 256 * count ≤ length moves.old }
    ensures room { MatchOption result (Unit {0}) (λ n. (count ≤ n) × (256 * n ≤ length moves.old)) }
    ensures outcome { MatchOption result
        ((were : List P) (before : List ℕ) → Fit E.limit (P.kept cells.old) (map E.number moves.old) → Progress (S.first space.now) (S.next space.now) count (256 * row) were (P.kept cells.old) before (map E.number moves.old) → MoreThan (length (P.kept cells.old)) (S.first space.now) (S.next space.now))
        (λ n. Reading (S.first space.now) (S.next space.now) E.limit count (256 * row) (P.kept cells.old) (map E.number moves.old) n (256 * row + 256) (P.kept cells.new) (map E.number moves.new)) }
{
    let room = moves.len() / 256;
    let from = P::get(cells, row)?;
    let mut count = count;
    for c in 0..256 {
        let like = usize::from(likes[c]);
        moves[256 * row + c] = if like < c {
            moves[256 * row + like]
        } else {
            let (number, met) = meet(&space.next(&from, c as u8), cells, count, room)?;
            count = met;
            E::nth(number)
        };
    }
    Some(count)
}

// For each byte the first that is like it, which may be the byte itself.
fn likes<P, S: Space<P>>(space: &S) -> [u8; 256]
    ensures likes { Likes (S.next space.now) 256 result }
{
    let mut likes = [0; 256];
    for c in 0..256 {
        likes[c] = like(space, c as u8);
    }
    likes
}

fn like<P, S: Space<P>>(space: &S, c: u8) -> u8
    ensures before { result ≤ c }
    ensures same { (p : P) → S.next space.now p result ≡ S.next space.now p c }
{
    for b in 0..c {
        if space.alike(b, c) {
            return b;
        }
    }
    c
}

// The number of a point, and how many points are met with it: a new one gets the next number, if
// there is room.
fn meet<P: Point>(
    point: &P,
    cells: &mut [P::Cell],
    count: usize,
    room: usize,
) -> Option<(usize, usize)>
    requires count { count ≤ room }
    ensures room { MatchOption result (Unit {0}) (λ r. (count ≤ r.1) × (r.1 ≤ room)) }
    ensures met { count ≤ length (P.kept cells.old) → MatchOption result ((Contains (take count (P.kept cells.old)) point.now → ⊥) × ((count ≡ room) ⊎ (count ≡ length (P.kept cells.old))))
        (λ r. MeetsIn count (P.kept cells.old) point.now r.0 r.1 (P.kept cells.new)) }
{
    match point.find(cells, count) {
        Some(number) => Some((number, count)),
        None if count < room && point.put(cells, count) => Some((count, count + 1)),
        None => None,
    }
}
