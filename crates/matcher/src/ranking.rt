ghost use Rattle.std.specs.Prelude.{◌≡◌, ◌⊎◌, length, slice_index, take};
ghost use Rattle.matcher.specs.Frames.{frame_kind, Laid, On};
ghost use Rattle.matcher.specs.Leaders.{leader_code, LeaderShown};
ghost use Rattle.matcher.specs.Searches.{word, KeepsAt, CodedAt, ReadyAt, ShowsAt};

use crate::frame::Spot;
use crate::search::Search;
use policies::Policy;
use rules::Alphabet;

// Room for two readings that are compared, in arrays, since the matcher takes no memory.
#[derive(Drop)]
pub(crate) struct Pad {
    pub(crate) best: [Option<(usize, usize)>; 64],
    pub(crate) next: [Option<(usize, usize)>; 64],
}

// The best code so far: alone, or compared already, so that the pad shows its reading. Here and in `better` and `best_split` a code
// stays a byte, since a cell of the bench is one.
#[derive(Clone, Copy)]
pub(crate) enum Leader {
    Alone(u8),
    Shown(u8),
}

impl Leader {
    pub(crate) fn code(self) -> u8
        ensures { result ≡ leader_code self }
    {
        match self {
            Leader::Alone(code) | Leader::Shown(code) => code,
        }
    }
}

impl<A: Alphabet, P: Policy> Search<'_, A, P> {
    // Of two codes of a spot, the one whose reading outranks.
    pub(crate) fn better(
        &self,
        bench: &[u8],
        spot: Spot,
        leader: Leader,
        next: u8,
        pad: &mut Pad,
    ) -> Leader
        requires laid { Laid self.now.frame bench.now }
        requires on { On self.now.frame spot }
        requires shown { LeaderShown self.now.frame bench.now spot leader (take (slice_index self.now.frame.sizes spot.node) pad.old.best) }
        ensures either { (leader_code result ≡ leader_code leader) ⊎ (leader_code result ≡ next) }
        ensures ranked { KeepsAt (P.Policy.above self.now.policy.now) self.now.frame bench.now spot (leader_code leader) next (leader_code result) }
        ensures shown { LeaderShown self.now.frame bench.now spot result (take (slice_index self.now.frame.sizes spot.node) pad.new.best) }
    {
        let size = self.frame.sizes[spot.node] as usize;
        let stretch = Some((spot.start, spot.end));
        self.lay_out(bench, spot, leader, &mut pad.best[..size]);
        self.frame
            .unpack(bench, spot.node, stretch, next, &mut pad.next[..size]);
        let rows = self.frame.rows();
        let rank = self
            .policy
            .rank(rows, spot.node, &pad.best[..size], &pad.next[..size]);
        if rank.is_lt() {
            pad.best = pad.next;
            return Leader::Shown(next);
        }
        Leader::Shown(leader.code())
    }

    // Unpacks the reading of the best code so far, unless it is there.
    fn lay_out(&self, bench: &[u8], spot: Spot, leader: Leader, out: &mut [Option<(usize, usize)>])
        requires laid { Laid self.now.frame bench.now }
        requires on { On self.now.frame spot }
        requires long { length out.old ≡ slice_index self.now.frame.sizes spot.node }
        requires shown { LeaderShown self.now.frame bench.now spot leader out.old }
        ensures { ShowsAt self.now.frame bench.now spot (leader_code leader) out.new }
    {
        if let Leader::Alone(code) = leader {
            let stretch = Some((spot.start, spot.end));
            self.frame.unpack(bench, spot.node, stretch, code, out);
        }
    }

    // The code of the best split of a sequence, where the bench has the codes of every split's halves.
    pub(crate) fn best_split(&self, bench: &[u8], spot: Spot, pad: &mut Pad) -> u8
        requires laid { Laid self.now.frame bench.now }
        requires on { On self.now.frame spot }
        requires kind { frame_kind self.now.frame spot.node ≡ 3 }
        requires ready { ReadyAt (P.Policy.above self.now.policy.now) self.now.frame (word self.now) bench.now spot }
        ensures { CodedAt (P.Policy.above self.now.policy.now) self.now.frame (word self.now) bench.now spot result }
    {
        let (first, second) = self.frame.parts(spot);
        let splits = self.frame.splits(first, second.node);
        let mut best = None;
        for k in splits {
            if self.frame.both_coded(bench, first.front(k), second.back(k)) {
                let code = (k - spot.start + 1) as u8;
                best = Some(match best {
                    Some(leader) => self.better(bench, spot, leader, code, pad),
                    None => Leader::Alone(code),
                });
            }
        }
        match best {
            Some(leader) => leader.code(),
            None => unreachable(),
        }
    }
}
