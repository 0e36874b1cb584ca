// Bundles checked whole, by the text that is printed. The answers are those of docs/bundles.md,
// docs/refusals.md and README.md.
use bundle::check::answer;
use std::process::Abort;
use std::test::Fail;

fn prints(rt: &(impl Abort + AllocGlobal), input: &[u8], text: &str) -> Result<(), Fail> {
    let said = answer(rt.alloc(), input)?;
    assert!(rt; said.as_str() == text);
    Ok(())
}

#[test]
fn the_examples(rt: HostRuntime) -> Result<(), Fail> {
    let worked = b"\x00\x02\x00\x06\x01\x03\x00\x03\x00\x01(abc)*cabc";
    prints(&rt, worked, "verdict no\nbytes 4\nlines 0\nlost at 1")?;
    let three = b"\x00\x03\x00\x02\x01\x00\x01\x00\x04\x00\x04\x00\x04.*tow\none\ntwo\n";
    prints(&rt, three, "verdict yes\nbytes 8\nlines 2\nlost at none")?;
    prints(
        &rt,
        b"\x00\x00\x00\x00",
        "verdict yes\nbytes 0\nlines 0\nlost at none",
    )
}

#[test]
fn inputs_of_a_wrong_size(rt: HostRuntime) -> Result<(), Fail> {
    prints(&rt, b"", "refused 11 layer bundle place 0")?;
    prints(&rt, b"\x00\x00\x00", "refused 11 layer bundle place 3")?;
    prints(
        &rt,
        b"\x00\x01\x00\x00\x05\x00\x02",
        "refused 11 layer bundle place 7",
    )?;
    prints(&rt, b"\xff\xff\xff\xff", "refused 11 layer bundle place 4")?;
    prints(
        &rt,
        b"\x00\x00\x00\x00\x00",
        "refused 11 layer bundle place 5",
    )
}

// The pattern `.*` and one strip as long as the input has room for: 4 + 3 + 2 + 32,759.
#[test]
fn inputs_at_the_limit(rt: HostRuntime) -> Result<(), Fail> {
    let mut input = [10; 32770];
    input[0] = 0;
    input[1] = 1;
    input[2] = 0;
    input[3] = 2;
    input[4] = 0;
    input[5] = 0x7f;
    input[6] = 0xf7;
    input[7] = b'.';
    input[8] = b'*';
    prints(
        &rt,
        &input[0..32768],
        "verdict yes\nbytes 32759\nlines 32759\nlost at none",
    )?;
    prints(&rt, &input[0..32769], "refused 11 layer bundle place 32769")?;
    prints(&rt, &input, "refused 11 layer bundle place 32769")
}

#[test]
fn the_first_refusal_ends_it(rt: HostRuntime) -> Result<(), Fail> {
    let bad_pattern = b"\x00\x01\x00\x06\x80\x00\x01a{2,1}x";
    prints(&rt, bad_pattern, "refused 2 layer pattern place 5")?;
    let no_slot = b"\x00\x03\x00\x01\x7f\x80\xff\x00\x01\x00\x01\x00\x01axyz";
    prints(&rt, no_slot, "refused 9 layer roll place 128")?;
    let crowded = b"\x00\x00\x00\x0aa{32}a{32}";
    prints(&rt, crowded, "refused 3 layer pattern place 0")
}

// The counts are those of another program, which numbers the sets and the starts of a pattern by
// their definition: 15 sets and 96 starts, 16 sets and 97 starts, and more than 64 sets.
#[test]
fn machines_without_room(rt: HostRuntime) -> Result<(), Fail> {
    let full = b"\x00\x01\x00\x0d\x00\x00\x07a{6}(b{5}c)*daaaaaad";
    prints(&rt, full, "verdict yes\nbytes 7\nlines 0\nlost at none")?;
    let starts = b"\x00\x01\x00\x10\x80\x00\x01a{7}(b{4}c)*d{2}x";
    prints(&rt, starts, "refused 6 layer build place 96")?;
    let sets = b"\x00\x01\x00\x07\x80\x00\x01.*a.{5}x";
    prints(&rt, sets, "refused 5 layer build place 0")
}
