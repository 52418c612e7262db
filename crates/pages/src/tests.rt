// Worked examples of bench/pages/C-24.txt: sizes, budget, each image's page, steps, pages above the bound.
use crate::{BadList, pack};

#[test]
fn worked_examples(rt: HostRuntime) {
    let six: [u16; 6] = [1700, 1700, 1190, 1190, 1190, 1190];
    let mixed: [u16; 6] = [1190, 1700, 1360, 1190, 1020, 1700];
    let start: [u8; 6] = [0, 0, 1, 1, 1, 2];
    let two: [u8; 6] = [0, 1, 0, 0, 1, 1];
    for (sizes, budget, pages, opened, steps, above) in [
        (six, 0, start, 3, 0, 1),
        (six, 28, start, 3, 28, 1),
        (six, 29, two, 2, 29, 0),
        (six, 206, two, 2, 205, 0),
        (mixed, 28, [1, 0, 1, 1, 2, 0], 3, 28, 1),
        (mixed, 29, [1, 0, 0, 1, 0, 1], 2, 29, 0),
        (
            [3000, 2000, 2000, 1500, 1096, 500],
            81,
            [0, 1, 1, 2, 0, 2],
            3,
            80,
            0,
        ),
    ] {
        match pack(&sizes, budget) {
            Ok(p) => {
                assert_eq!(rt; &p.pages[..6], pages.as_slice(), "pages at {budget}");
                assert_eq!(rt; p.opened, opened, "opened at {budget}");
                assert_eq!(rt; p.steps, steps, "steps at {budget}");
                assert_eq!(rt; p.above, above, "above at {budget}");
            }
            Err(_) => assert!(rt; false, "refused at {budget}"),
        }
    }
}

#[test]
fn refused_lists(rt: HostRuntime) {
    assert!(rt; matches!(pack(&[4097], 9), Err(BadList::ImageTooLarge)));
    assert!(rt; matches!(pack(&[1, 5000], 9), Err(BadList::ImageTooLarge)));
    assert!(rt; matches!(pack(&[0; 33], 9), Err(BadList::TooManyImages)));
    assert!(rt; matches!(pack(&[4096; 32], 0), Ok(_)));
}
