// What reading a pattern comes to, in numbers.
ghost use Rattle.yorvuste.specs.Readings.{Reads};

use pattern::Pattern;

// `refusal` is 0 where the pattern was read, and then `places` is the number of its places and `place`
// is 0. Else it is the number of the refusal, whose place is `place`, and `places` is 0.
#[repr(C)]
#[derive(Clone, Copy)]
pub struct Reading {
    pub refusal: u8,
    pub places: u8,
    pub place: usize,
}

pub(crate) fn reading_of(pattern: &[u8]) -> Reading
    ensures reads { Reads pattern.now result }
{
    match Pattern::new().read(pattern) {
        Ok(places) => Reading {
            refusal: 0,
            places,
            place: 0,
        },
        Err(fault) => Reading {
            refusal: fault.refusal.number(),
            places: 0,
            place: fault.place,
        },
    }
}
