ghost use Rattle.std.specs.Prelude.{◌≡◌, true, map, if◌then◌else◌, Some, None};
ghost use Rattle.sheet.specs.Histories.{allows, held_from, held_then, leads_locked, open_then};
ghost use Rattle.sheet.specs.Law.{Answered};
ghost use Rattle.sheet.specs.Replays.{Replay, alphabet_in, asked, is_open, meant, policy_in, rules_in, told};
ghost use Rattle.sheet.specs.Sheets.{holding, locked};

use super::{Answer, Call, NotAllowed, Question, Replayed, Sheet};
use crate::sheet::{LockedSheet, OpenSheet};
use policies::Policy;
use rules::Alphabet;

impl<A: Alphabet, P: Policy> LockedSheet<A, P> {
    // Asks the question, with what it owns lent.
    fn ask(&self, question: &mut Question<A::Symbol>) -> Answer
        ensures answered { Answered (A.Alphabet.held self.now.kept.alphabet) (P.Policy.above self.now.kept.policy) (locked self.now) (asked question.old) (told (locked self.now) question.new result) }
    {
        match question {
            Question::Spans(place, name, bench, report) => {
                Answer::Spans(self.spans(*place, name, bench, report))
            }
            Question::Govern(name) => Answer::Govern(self.govern(name)),
            Question::Sets(place, masks) => Answer::Sets(self.sets(*place, masks)),
        }
    }
}

impl<A: Alphabet, P: Policy> Sheet<A, P> {
    // Makes one call that the sheet allows.
    fn step(self, call: &mut Call<A::Symbol>) -> Sheet<A, P>
        requires { allows (is_open self) (meant call.old) ≡ true }
        ensures state { is_open result ≡ open_then (is_open self) (meant call.old) }
        ensures rules { rules_in result ≡ held_then (A.Alphabet.admitted (alphabet_in self)) (rules_in self) (meant call.old) }
        ensures alphabet { alphabet_in result ≡ alphabet_in self }
        ensures policy { policy_in result ≡ policy_in self }
    {
        match (self, call) {
            (Sheet::Open(mut sheet), Call::Add(rows)) => {
                let _ = sheet.add(rows);
                Sheet::Open(sheet)
            }
            (Sheet::Open(mut sheet), Call::Drop(place)) => {
                let _ = sheet.drop(*place);
                Sheet::Open(sheet)
            }
            (Sheet::Open(sheet), Call::Lock) => Sheet::Locked(sheet.lock()),
            (Sheet::Locked(sheet), Call::Unlock) => Sheet::Open(sheet.unlock()),
            (Sheet::Locked(sheet), Call::Ask(question)) => {
                let _ = sheet.ask(question);
                Sheet::Locked(sheet)
            }
            _ => unreachable(),
        }
    }
}

// Whether a sheet that is open, or locked, is open after the call, where it allows the call.
// Open or locked is a bool here, as the law over histories says it.
fn next_open<S>(open: bool, call: &Call<S>) -> Option<bool>
    ensures { result ≡ (if allows «open» (meant call.now) then Some (open_then «open» (meant call.now)) else None) }
{
    match (open, call) {
        (true, Call::Add(_) | Call::Drop(_)) => Some(true),
        (true, Call::Lock) => Some(false),
        (false, Call::Unlock) => Some(true),
        (false, Call::Ask(_)) => Some(false),
        (_, _) => None,
    }
}

// Whether an open sheet allows the calls in turn, and they leave it locked.
fn lead_locked<S>(calls: &[Call<S>]) -> bool
    ensures { result ≡ leads_locked true (map meant calls.now) }
{
    let mut open = true;
    for call in calls {
        match next_open(open, call) {
            Some(next) => open = next,
            None => return false,
        }
    }
    !open
}

// Makes the calls in turn.
fn run<A: Alphabet, P: Policy>(
    sheet: OpenSheet<A, P>,
    calls: &mut [Call<A::Symbol>],
) -> LockedSheet<A, P>
    requires { leads_locked true (map meant calls.old) ≡ true }
    ensures rules { locked result ≡ held_from (A.Alphabet.admitted sheet.kept.alphabet) (holding sheet) (map meant calls.old) }
    ensures alphabet { result.kept.alphabet ≡ sheet.kept.alphabet }
    ensures policy { result.kept.policy ≡ sheet.kept.policy }
{
    let mut state = Sheet::Open(sheet);
    for call in calls.iter_mut() {
        state = state.step(call);
    }
    match state {
        Sheet::Locked(sheet) => sheet,
        Sheet::Open(_) => unreachable(),
    }
}

// Makes the calls in turn on a sheet, and then asks the question.
pub fn replay<A: Alphabet, P: Policy>(
    sheet: OpenSheet<A, P>,
    calls: &mut [Call<A::Symbol>],
    question: &mut Question<A::Symbol>,
) -> Result<Replayed<A, P>, NotAllowed<A, P>>
    ensures { Replay A.Alphabet.admitted A.Alphabet.held P.Policy.above sheet.kept.alphabet sheet.kept.policy (holding sheet) calls.old question.old question.new result }
{
    if !lead_locked(calls) {
        return Err(NotAllowed { sheet });
    }
    let sheet = run(sheet, calls);
    let answer = sheet.ask(question);
    Ok(Replayed { sheet, answer })
}
