// The three orders on textbook monomials, and what they do not compare.
use order::{Graded, Lex, MonomialOrder, Reverse};
use std::cmp::Ordering;

// x > y^5 z^3 by lex only; x²z² > xy²z by lex and graded, not by reverse.
#[test]
fn textbook_monomials(rt: HostRuntime) {
    assert_eq!(rt;
        Lex.compare(&[1, 0, 0], &[0, 5, 3]),
        Some(Ordering::Greater)
    );
    assert_eq!(rt;
        Graded.compare(&[1, 0, 0], &[0, 5, 3]),
        Some(Ordering::Less)
    );
    assert_eq!(rt;
        Reverse.compare(&[1, 0, 0], &[0, 5, 3]),
        Some(Ordering::Less)
    );
    assert_eq!(rt;
        Graded.compare(&[2, 0, 2], &[1, 2, 1]),
        Some(Ordering::Greater)
    );
    assert_eq!(rt;
        Reverse.compare(&[2, 0, 2], &[1, 2, 1]),
        Some(Ordering::Less)
    );
    assert_eq!(rt;
        Reverse.compare(&[1, 0, 1], &[0, 2, 0]),
        Some(Ordering::Less)
    );
}

#[test]
fn comparable_monomials_only(rt: HostRuntime) {
    assert_eq!(rt; Lex.compare(&[], &[]), Some(Ordering::Equal));
    assert_eq!(rt; Lex.compare(&[1], &[1, 0]), None);
    assert_eq!(rt; Graded.compare(&[255], &[255]), Some(Ordering::Equal));
    assert_eq!(rt; Graded.compare(&[256], &[0]), None);
    assert_eq!(rt; Reverse.compare(&[0], &[256]), None);
    assert_eq!(rt;
        Reverse.compare(&[1; 24], &[0; 24]),
        Some(Ordering::Greater)
    );
    assert_eq!(rt; Reverse.compare(&[1; 25], &[0; 25]), None);
}
