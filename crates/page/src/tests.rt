// Lines as they stand on a page, and what stands around them.
use super::Page;
use super::pieces::Piece;

#[test]
fn words_and_a_number(rt: HostRuntime) {
    let mut bytes = [b'#'; 48];
    let mut page = Page::new(&mut bytes[2..]);
    page.put_line(&[
        Piece::Text("(refused "),
        Piece::Number(10),
        Piece::Text(" "),
        Piece::Text("share"),
        Piece::Text(")\n"),
    ]);
    assert_eq!(rt; page.len(), 21 - 2);
    assert!(rt; &bytes[0..25] == b"##(refused 10 share)\n####".as_slice());
}

#[test]
fn signs_and_zero(rt: HostRuntime) {
    let mut bytes = [b'#'; 96];
    let mut page = Page::new(&mut bytes);
    page.put_line(&[
        Piece::Number(-1207),
        Piece::Text(" "),
        Piece::Number(0),
        Piece::Text(" "),
        Piece::Number(18446744073709551615),
    ]);
    assert_eq!(rt; page.len(), 28);
    assert!(rt; &bytes[0..30] == b"-1207 0 18446744073709551615##".as_slice());
}
