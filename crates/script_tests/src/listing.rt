use super::answers::check_answers;
use model::scheme::Scheme;
use schemes::bytes::ByBytes;
use schemes::depth::ByDepth;
use schemes::strength::ByStrength;
use std::test::Fail;
use text::command::SchemeName;

#[test]
fn a_heap_graded_by_strength_bytes_and_depth(rt: HostRuntime) -> Result<(), Fail> {
    check_answers(
        &rt,
        &[
            ("c 0 10", "ok"),
            ("c 1 20", "ok"),
            ("c 2 5", "ok"),
            ("c 3 8", "ok"),
            ("r 0 0", "ok"),
            ("l 1 0 1 s", "ok"),
            ("e 2 1 2 3", "ok"),
            ("l 4 3 2 s", "ok"),
            ("g s", "ok 2 2 0=0/0 1=0/1"),
            ("l 3 0 2 w", "ok"),
            ("g b", "ok 4 5 0=10/0 1=30/1 2=15/3 3=53/2"),
            ("w s 3", "ok 2 4 0 1 3 2"),
            ("c 2 9", "no h 2 2"),
            ("g d", "ok 4 5 0=0.0/0 1=1.1/1 2=1.3/3 3=2.2/2"),
        ],
    )
}

#[test]
fn why_a_cell_survives(rt: HostRuntime) -> Result<(), Fail> {
    check_answers(
        &rt,
        &[
            ("w s 0", "no h 12 4"),
            ("w s 1024", "no h 1 4"),
            ("c 0 10", "ok"),
            ("w b 0", "no h 12 4"),
            ("r 7 0", "ok"),
            ("w b 0", "ok 10 1 7"),
            ("c 1 20", "ok"),
            ("c 2 30", "ok"),
            ("e 5 0 0 1", "ok"),
            ("l 6 1 2 w", "ok"),
            ("w b 2", "ok 70 3 7 5 6"),
            ("w s 2", "ok 2 3 7 5 6"),
            ("w d 2", "ok 2.6 3 7 5 6"),
            ("w d 1", "ok 1.5 2 7 5"),
            ("w d 3", "no h 12 4"),
            ("w", "no t 32 0"),
            ("w d", "no t 32 0"),
            ("w q 3", "no t 33 2"),
            ("w d x", "no t 33 4"),
        ],
    )
}

#[test]
fn each_scheme_is_named_by_its_letter(rt: HostRuntime) {
    assert_eq!(rt;
        SchemeName::try_from(ByStrength::LETTER).ok(),
        Some(SchemeName::Strength)
    );
    assert_eq!(rt;
        SchemeName::try_from(ByBytes::LETTER).ok(),
        Some(SchemeName::Bytes)
    );
    assert_eq!(rt;
        SchemeName::try_from(ByDepth::LETTER).ok(),
        Some(SchemeName::Depth)
    );
}
