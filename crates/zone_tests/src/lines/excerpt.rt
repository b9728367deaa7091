//! An excerpt of a text, as a message shows it.

use std::test::Fail;
use text_lines::Excerpt;

#[test]
fn an_excerpt_is_shown(rt: HostRuntime) -> Result<(), Fail> {
    let alloc = rt.alloc();
    let shown = |text: &[u8]| format!(in alloc; "{}", Excerpt::of(text));
    assert_eq!(rt; shown(b"trun 0")?.as_str(), "\"trun 0\"");
    assert_eq!(rt; shown(b"")?.as_str(), "\"\"");
    assert_eq!(rt; shown(b"a\t\"\xc3")?.as_str(), "\"a\\t\\\"\\xc3\"");
    let digits = b"0123456789012345678901234567890123456789x";
    assert_eq!(rt;
        shown(&digits[..40])?.as_str(),
        "\"0123456789012345678901234567890123456789\""
    );
    assert_eq!(rt;
        shown(digits)?.as_str(),
        "\"0123456789012345678901234567890123456789\".."
    );
    Ok(())
}
