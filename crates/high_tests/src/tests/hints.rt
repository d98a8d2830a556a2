//! What is seen of a program's input.

use super::same;
use super::streams::acts;
use mrp_rows::devices::{Act, Acts, EVERYTHING, Pieces};
use mrp_words::{SeenInput, Sights};
use std::io::{ErrorKind, Read};

// Whether an input is seen as a folder, and as UTF-16, after two reads of up to three bytes.
fn seen_of(text: &[u8], acts: Acts<'_>) -> (bool, bool) {
    let sights = Sights::new();
    let mut input = SeenInput {
        inner: Pieces::new(text, acts),
        sights: &sights,
    };
    let mut piece = [0; 3];
    let _ = input.read(&mut piece);
    let _ = input.read(&mut piece);
    (sights.is_folder(), sights.is_utf16())
}

#[test]
fn a_folder_and_a_mark_of_utf16_are_seen(rt: HostRuntime) {
    const TEXTS: [(&[u8], bool); 5] = [
        (b"\xFF\xFE[\0", true),
        (b"\xFE\xFF\0[", true),
        (b"\xEF\xBB\xBF[", false),
        (b"[ca\xFF\xFE", false),
        (b"", false),
    ];
    for (text, is_utf16) in TEXTS {
        same(&rt, seen_of(text, EVERYTHING), (false, is_utf16));
    }
    for (why, is_folder) in [(ErrorKind::IsADirectory, true), (ErrorKind::Other, false)] {
        let shut = acts(&[], Act::Fails(why));
        same(&rt, seen_of(b"", shut), (is_folder, false));
    }
}
