//! Bytes that are no JSON.

use scn_hint::Cause;
use std::test::Fail;

/// Bytes that are no JSON, and why, where they show it.
const CAUSES: [(&[u8], Option<Cause>); 9] = [
    (b"\xef\xbb\xbf{}", Some(Cause::Mark)),
    (b"\xff\xfe{\0}\0", Some(Cause::Utf16)),
    (b"\xfe\xff\0{\0}", Some(Cause::Utf16)),
    (b"{\0}\0", Some(Cause::Utf16)),
    (b"\"\xff\"", Some(Cause::NotUtf8)),
    (br#"{"\ud83d":1}"#, Some(Cause::HalfPair)),
    (br#"{"\ude00":1}"#, Some(Cause::HalfPair)),
    (br#"{"\ud83d\ude00":}"#, None),
    (br#"{"pes":1"#, None),
];

#[test]
fn bytes_show_why_they_are_no_json(rt: HostRuntime) -> Result<(), Fail> {
    for (bytes, cause) in CAUSES {
        assert_eq!(&rt; Cause::of(bytes), cause, "of {bytes:?}");
    }
    for (depth, cause) in [(127, None), (128, Some(Cause::TooDeep))] {
        let bytes = vec![in rt.alloc(); b'['; depth]?;
        assert_eq!(&rt; Cause::of(bytes.as_slice()), cause, "{depth} deep");
    }
    Ok(())
}
