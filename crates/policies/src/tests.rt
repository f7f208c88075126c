use crate::first_longest::FirstLongest;
use crate::opposite::Opposite;
use crate::policy::Policy;
use crate::posix::Posix;
use rules::{Kind, Row};
use std::cmp::Ordering;
use std::process::Abort;

// Two readings of one stretch by a node.
#[derive(Clone, Copy)]
struct Pair<'a> {
    rows: &'a [Row],
    node: usize,
    one: &'a [Option<(usize, usize)>],
    two: &'a [Option<(usize, usize)>],
}

impl Pair<'_> {
    // The policy ranks the two readings so, and each beside itself as equal.
    fn ranks<P: Policy>(&self, rt: &impl Abort, policy: &P, want: Ordering) {
        let rank = |x, y| policy.rank(self.rows, self.node, x, y);
        assert_eq!(rt; rank(self.one, self.two), want);
        assert_eq!(rt; rank(self.two, self.one), want.reverse());
        assert_eq!(rt; rank(self.one, self.one), Ordering::Equal);
        assert_eq!(rt; rank(self.two, self.two), Ordering::Equal);
    }
}

// The rule (a|ab)(b|) on ab, read by ab and then nothing, and by a and then b. Written out, since tests do not see another crate's.
fn ranks<P: Policy>(rt: &impl Abort, policy: &P, want: Ordering) {
    let rows = [
        Row::from(Kind::Sequence),
        Row::from(Kind::Choice),
        Row::leaf(97, 97),
        Row::from(Kind::Sequence),
        Row::leaf(97, 97),
        Row::leaf(98, 98),
        Row::from(Kind::Choice),
        Row::leaf(98, 98),
        Row::from(Kind::Empty),
    ];
    let long = [
        Some((0, 2)),
        Some((0, 2)),
        None,
        Some((0, 2)),
        Some((0, 1)),
        Some((1, 2)),
        Some((2, 2)),
        None,
        Some((2, 2)),
    ];
    let short = [
        Some((0, 2)),
        Some((0, 1)),
        Some((0, 1)),
        None,
        None,
        None,
        Some((1, 2)),
        Some((1, 2)),
        None,
    ];
    let pair = Pair {
        rows: &rows,
        node: 0,
        one: &long,
        two: &short,
    };
    pair.ranks(rt, policy, want);
}

// The rule b(a*a*) on baa: its second part, where the first star takes both letters or one.
fn ranks_stars<P: Policy>(rt: &impl Abort, policy: &P, want: Ordering) {
    let rows = [
        Row::from(Kind::Sequence),
        Row::leaf(98, 98),
        Row::from(Kind::Sequence),
        Row::from(Kind::Star),
        Row::leaf(97, 97),
        Row::from(Kind::Star),
        Row::leaf(97, 97),
    ];
    let both = [Some((1, 3)), Some((1, 3)), None, Some((3, 3)), None];
    let one = [Some((1, 3)), Some((1, 2)), None, Some((2, 3)), None];
    let pair = Pair {
        rows: &rows,
        node: 2,
        one: &both,
        two: &one,
    };
    pair.ranks(rt, policy, want);
}

#[test]
fn posix_takes_the_longest_beginning(rt: HostRuntime) {
    ranks(&rt, &Posix, Ordering::Greater);
}

#[test]
fn first_longest_takes_the_first_part(rt: HostRuntime) {
    ranks(&rt, &FirstLongest, Ordering::Less);
}

#[test]
fn opposites_are_turned_round(rt: HostRuntime) {
    ranks(&rt, &Opposite { policy: Posix }, Ordering::Less);
    ranks(
        &rt,
        &Opposite {
            policy: FirstLongest,
        },
        Ordering::Greater,
    );
}

#[test]
fn stars_take_the_most(rt: HostRuntime) {
    ranks_stars(&rt, &Posix, Ordering::Greater);
    ranks_stars(&rt, &FirstLongest, Ordering::Greater);
}
