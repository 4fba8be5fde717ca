use crate::FixedText;

#[test]
fn texts_hold_what_they_were_made_of(rt: HostRuntime) {
    let text = FixedText::<4>::of(b"ab").with(b"cd");
    assert_eq!(rt; text.bytes(), b"abcd".as_slice());
    assert!(rt; text.copy() == text);
    assert!(rt; FixedText::<4>::new() != text);
}
