ghost use Rattle.std.specs.Prelude.{◌≡◌, ◌≤◌};
ghost use Rattle.rules.specs.Denials.{numbered};
ghost use Rattle.sheet.specs.Changes.{unless};
ghost use Rattle.sheet.specs.Questions.{name_met, bench_met, room_met};

use matcher::matching::LONGEST;
use rules::Denial;

// 8: the name has over 120 symbols.
pub(crate) fn check_name(symbols: usize) -> Result<(), Denial>
    ensures { numbered result ≡ unless (name_met symbols) tt }
{
    if symbols > LONGEST {
        return Err(Denial::NameTooLong);
    }
    Ok(())
}

// 9: the bench has fewer bytes than nodes × (symbols + 1) × (symbols + 1).
pub(crate) fn check_bench(nodes: usize, symbols: usize, bench: usize) -> Result<(), Denial>
    requires { (nodes ≤ 64) × (symbols ≤ 120) }
    ensures { numbered result ≡ unless (bench_met nodes symbols bench) tt }
{
    if bench < nodes * (symbols + 1) * (symbols + 1) {
        return Err(Denial::BenchTooShort);
    }
    Ok(())
}

// 10: there are fewer entries or masks than the answer needs.
pub(crate) fn check_room(needs: usize, has: usize) -> Result<(), Denial>
    ensures { numbered result ≡ unless (room_met needs has) tt }
{
    if has < needs {
        return Err(Denial::AnswerTooLong);
    }
    Ok(())
}
