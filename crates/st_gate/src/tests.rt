use super::*;

#[test]
fn judges_at_both_ends(rt: HostRuntime) {
    for (oldest, newest, version, want) in [
        (3, 7, 2, Judged::TooOld { oldest: 3 }),
        (3, 7, 3, Judged::Ready),
        (3, 7, 7, Judged::Ready),
        (3, 7, 8, Judged::NotYet { newest: 7 }),
        (5, 5, 5, Judged::Ready),
        (0, 0, u64::MAX, Judged::NotYet { newest: 0 }),
    ] {
        assert_eq!(rt; judge(oldest, newest, version), want);
    }
}
