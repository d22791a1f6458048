use model::fault::{Cause, Fault};
use model::record::Strength;
use model::scheme::{Rank, Scheme};
use schemes::bytes::ByBytes;
use schemes::depth::{ByDepth, Depth};
use schemes::strength::ByStrength;

const NO_GRADE: Fault = Fault {
    cause: Cause::LimitNumber,
    place: 2,
};

#[test]
fn limits_of_each_scheme(rt: HostRuntime) {
    assert_eq!(rt; ByStrength::limit(0), Ok(Strength::Strong));
    assert_eq!(rt; ByStrength::limit(3), Ok(Strength::Phantom));
    assert_eq!(rt; ByStrength::limit(4), Err(NO_GRADE));
    assert_eq!(rt; ByBytes::limit(0), Ok(0));
    assert_eq!(rt; ByBytes::limit(4294967295), Ok(4294967295));
    let deepest = Depth {
        depth: 65535,
        tie: 65535,
    };
    assert_eq!(rt; ByDepth::limit(65535), Ok(deepest));
    assert_eq!(rt; ByDepth::limit(65536), Err(NO_GRADE));
}

#[test]
fn bytes_end_at_the_largest_number(rt: HostRuntime) {
    let source = 4294967290;
    assert_eq!(rt; ByBytes.along(0, 4, source, Strength::Weak), 4294967294);
    assert_eq!(rt; ByBytes.along(0, 5, source, Strength::Weak), 4294967295);
    assert_eq!(rt; ByBytes.along(0, 6, source, Strength::Weak), 4294967295);
    assert_eq!(rt; ByBytes.join(0, 6, source, source), 4294967295);
    assert_eq!(rt; ByBytes.join(0, 6, 10, 20), 36);
}

#[test]
fn depths_end_where_ties_are_one(rt: HostRuntime) {
    for (source, depth, tie) in [
        (0, 1, 9),
        (65533, 65534, 9),
        (65534, 65535, 65535),
        (65535, 65535, 65535),
    ] {
        let below = Depth { depth, tie };
        let from = Depth {
            depth: source,
            tie: 7,
        };
        assert_eq!(rt; ByDepth.along(9, 1, from, Strength::Strong), below);
        assert_eq!(rt; ByDepth.join(9, 1, from, Depth { depth: 0, tie: 8 }), below);
    }
}

#[test]
fn the_tie_decides_between_equal_depths(rt: HostRuntime) {
    let a = Depth { depth: 2, tie: 7 };
    let b = Depth { depth: 2, tie: 8 };
    let c = Depth { depth: 3, tie: 0 };
    assert_eq!(rt; ByDepth.rank(a, b), Rank::Before);
    assert_eq!(rt; ByDepth.rank(a, a), Rank::Same);
    assert_eq!(rt; ByDepth.rank(c, b), Rank::After);
}

#[test]
fn strengths_take_the_weaker(rt: HostRuntime) {
    assert_eq!(rt;
        ByStrength.along(0, 1, Strength::Soft, Strength::Weak),
        Strength::Weak
    );
    assert_eq!(rt;
        ByStrength.along(0, 1, Strength::Phantom, Strength::Weak),
        Strength::Phantom
    );
    assert_eq!(rt;
        ByStrength.join(0, 1, Strength::Soft, Strength::Strong),
        Strength::Soft
    );
    assert_eq!(rt;
        ByStrength.rank(Strength::Soft, Strength::Weak),
        Rank::Before
    );
}
