// The example of docs/bundles.md, and inputs of a wrong size.
use bundle::decode::Bundle;
use bundle::walk::Strip;
use fault::{Layer, Refusal};
use std::test::Fail;

const EXAMPLE: &[u8] = b"\x00\x03\x00\x02\x01\x00\x01\x00\x04\x00\x04\x00\x04.*tow\none\ntwo\n";

fn refused_at(input: &[u8], place: usize) -> bool {
    Bundle::decode(input).err() == Some(Layer::Bundle.fault(Refusal::BundleSize, place))
}

#[test]
fn hands_out_the_example(rt: HostRuntime) -> Result<(), Fail> {
    let bundle = Bundle::decode(EXAMPLE)?;
    assert!(rt; bundle.pattern() == b".*".as_slice());
    let mut strips = bundle.strips();
    let handed_out = [(1, b"tow\n"), (0, b"one\n"), (1, b"two\n")];
    for (slot, text) in handed_out {
        assert_eq!(rt; strips.next(), Some(Strip { slot, text }));
    }
    assert_eq!(rt; strips.next(), None);
    Ok(())
}

#[test]
fn refuses_other_sizes(rt: HostRuntime) {
    assert!(rt; refused_at(b"", 0), "empty");
    assert!(rt; refused_at(b"\x00\x00\x00", 3), "half a head");
    assert!(rt; refused_at(b"\x00\x01\x00\x00", 4), "a slot past the end");
    assert!(rt;
        refused_at(b"\x00\x00\xff\xff.", 5),
        "a pattern past the end"
    );
    assert!(rt;
        refused_at(b"\x00\x01\x00\x00\x05\x00\x02x", 8),
        "a text past the end"
    );
    assert!(rt; refused_at(b"\x00\x00\x00\x00\x00", 5), "a byte too many");
    assert!(rt;
        Bundle::decode(b"\x00\x00\x00\x00").is_ok(),
        "no pattern and no strips"
    );
}

// The head announces as many pattern bytes as the input has room for.
#[test]
fn keeps_to_the_limit(rt: HostRuntime) {
    let mut input = [0; 32770];
    input[2] = 0x7f;
    input[3] = 0xfc;
    assert!(rt; Bundle::decode(&input[0..32768]).is_ok(), "the limit");
    input[3] = 0xfd;
    assert!(rt; refused_at(&input[0..32769], 32769), "one more");
    input[3] = 0xfe;
    assert!(rt; refused_at(&input, 32769), "two more");
}
