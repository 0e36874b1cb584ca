// Another matcher, to run beside the machines, from another idea: a part of a pattern stands for the
// pairs (i, j) such that it matches the text from place i to place j. It reads the pattern by itself
// and expects one that is well written; texts have at most 63 bytes.
use std::array;

// Row i has bit j for each such pair.
#[derive(Clone, Copy)]
struct Spans {
    rows: [u64; 64],
}

impl Spans {
    // The empty text, at each place.
    fn everywhere() -> Spans {
        Spans {
            rows: array::from_fn(|i| 1 << i),
        }
    }

    fn or(&self, other: &Spans) -> Spans {
        Spans {
            rows: array::from_fn(|i| self.rows[i] | other.rows[i]),
        }
    }

    fn then(&self, second: &Spans) -> Spans {
        Spans {
            rows: self.rows.map(|row| second.reached_from(row)),
        }
    }

    // The places that end a pair which begins at a place of `from`.
    fn reached_from(&self, from: u64) -> u64 {
        let mut to = 0;
        for (i, row) in self.rows.iter().enumerate() {
            if (from >> i) & 1 == 1 {
                to |= *row;
            }
        }
        to
    }

    // Any number of times: 64 steps are enough for 64 places, and six squarings make 64 steps.
    fn star(&self) -> Spans {
        let mut all = Spans::everywhere().or(self);
        for _ in 0..6 {
            all = all.then(&all);
        }
        all
    }

    fn times(&self, least: u32, most: u32) -> Spans {
        let spare = Spans::everywhere().or(self);
        let mut all = Spans::everywhere();
        for _ in 0..least {
            all = all.then(self);
        }
        for _ in least..most {
            all = all.then(&spare);
        }
        all
    }
}

fn next(at: usize) -> usize {
    at.saturating_add(1)
}

fn mark(set: &mut [bool; 256], low: u8, high: u8) {
    for b in low..=high {
        set[usize::from(b)] = true;
    }
}

fn only(b: u8) -> [bool; 256] {
    let mut set = [false; 256];
    mark(&mut set, b, b);
    set
}

// The names that a class can have, and the bytes of each, by ranges.
const NAMED: [(&[u8], &[(u8, u8)]); 12] = [
    (b"[:alpha:]", &[(b'A', b'Z'), (b'a', b'z')]),
    (b"[:digit:]", &[(b'0', b'9')]),
    (b"[:alnum:]", &[(b'0', b'9'), (b'A', b'Z'), (b'a', b'z')]),
    (b"[:upper:]", &[(b'A', b'Z')]),
    (b"[:lower:]", &[(b'a', b'z')]),
    (b"[:space:]", &[(b'\t', b'\r'), (b' ', b' ')]),
    (b"[:blank:]", &[(b'\t', b'\t'), (b' ', b' ')]),
    (
        b"[:punct:]",
        &[(b'!', b'/'), (b':', b'@'), (b'[', b'`'), (b'{', b'~')],
    ),
    (b"[:print:]", &[(b' ', b'~')]),
    (b"[:graph:]", &[(b'!', b'~')]),
    (b"[:cntrl:]", &[(0, 31), (127, 127)]),
    (b"[:xdigit:]", &[(b'0', b'9'), (b'A', b'F'), (b'a', b'f')]),
];

// A pattern, and the text that it is tried on. A part is read from a place on, and answered with the
// place where it ends.
#[derive(Clone, Copy)]
struct Matcher<'a> {
    pattern: &'a [u8],
    text: &'a [u8],
}

impl Matcher<'_> {
    // Past the end of the pattern every byte is 0.
    fn byte(&self, at: usize) -> u8 {
        self.pattern.get(at).copied().unwrap_or(0)
    }

    fn one_of(&self, set: &[bool; 256]) -> Spans {
        let mut rows = [0; 64];
        for (i, (row, c)) in rows.iter_mut().zip(self.text).enumerate() {
            if i < 63 && set[usize::from(*c)] {
                *row = 2 << i;
            }
        }
        Spans { rows }
    }

    // A decimal number.
    fn number(&self, mut at: usize) -> (usize, u32) {
        let mut n = 0u32;
        for _ in 0..2 {
            let b = self.byte(at);
            if b.is_ascii_digit() {
                n = n.saturating_mul(10).saturating_add(u32::from(b - b'0'));
                at = next(at);
            }
        }
        (at, n)
    }

    // A class byte, escaped or not.
    fn class_byte(&self, at: usize) -> (usize, u8) {
        if self.byte(at) == b'\\' {
            (next(next(at)), self.byte(next(at)))
        } else {
            (next(at), self.byte(at))
        }
    }

    // A byte or a range of a class is marked in the set.
    fn member(&self, at: usize, set: &mut [bool; 256]) -> usize {
        let (end, low) = self.class_byte(at);
        let (end, high) = if self.byte(end) == b'-' {
            self.class_byte(next(end))
        } else {
            (end, low)
        };
        mark(set, low, high);
        end
    }

    // A name likewise.
    fn name(&self, at: usize, set: &mut [bool; 256]) -> usize {
        let rest = self.pattern.get(at..).unwrap_or(&[]);
        for (name, ranges) in NAMED {
            if rest.starts_with(name) {
                for (low, high) in ranges {
                    mark(set, *low, *high);
                }
                return at.saturating_add(name.len());
            }
        }
        next(at)
    }

    fn class(&self, at: usize) -> (usize, [bool; 256]) {
        let others = self.byte(at) == b'^';
        let mut at = if others { next(at) } else { at };
        let mut set = [false; 256];
        for _ in 0..256 {
            at = match self.byte(at) {
                b']' => break,
                b'[' => self.name(at, &mut set),
                _ => self.member(at, &mut set),
            };
        }
        (next(at), set.map(|marked| marked != others))
    }

    #[cycle(alternatives_atom_branch)]
    fn atom(&self, at: usize, depth: u8) -> (usize, Spans) {
        match self.byte(at) {
            b'(' if depth > 0 => {
                let (end, inside) = self.alternatives(next(at), depth - 1);
                (next(end), inside)
            }
            b'.' => (next(at), self.one_of(&[true; 256])),
            b'\\' => (next(next(at)), self.one_of(&only(self.byte(next(at))))),
            b'[' => {
                let (end, set) = self.class(next(at));
                (end, self.one_of(&set))
            }
            b => (next(at), self.one_of(&only(b))),
        }
    }

    fn repeated(&self, at: usize, part: Spans) -> (usize, Spans) {
        match self.byte(at) {
            b'*' => (next(at), part.star()),
            b'+' => (next(at), part.then(&part.star())),
            b'?' => (next(at), Spans::everywhere().or(&part)),
            b'{' => {
                let (end, least) = self.number(next(at));
                let (end, most) = if self.byte(end) == b',' {
                    self.number(next(end))
                } else {
                    (end, least)
                };
                (next(end), part.times(least, most))
            }
            _ => (at, part),
        }
    }

    #[cycle(alternatives_atom_branch)]
    fn branch(&self, mut at: usize, depth: u8) -> (usize, Spans) {
        let mut all = Spans::everywhere();
        for _ in 0..256 {
            if at >= self.pattern.len() || matches!(self.byte(at), b'|' | b')') {
                break;
            }
            let (end, part) = self.atom(at, depth);
            let (end, part) = self.repeated(end, part);
            all = all.then(&part);
            at = end;
        }
        (at, all)
    }

    #[cycle(alternatives_atom_branch)]
    fn alternatives(&self, at: usize, depth: u8) -> (usize, Spans) {
        let (mut at, mut all) = self.branch(at, depth);
        for _ in 0..256 {
            if self.byte(at) != b'|' {
                break;
            }
            let (end, more) = self.branch(next(at), depth);
            all = all.or(&more);
            at = end;
        }
        (at, all)
    }
}

// Whether the pattern matches the whole text.
pub(crate) fn matches(pattern: &[u8], text: &[u8]) -> bool {
    let matcher = Matcher { pattern, text };
    let (_, all) = matcher.alternatives(0, 16);
    match text.len() {
        0..=63 => (all.rows[0] >> text.len()) & 1 == 1,
        _ => false,
    }
}
