// An answer as a list of numbers, written to the front of a lent list.
#![tactic(auto)]

ghost use Rattle.std.specs.Prelude.{[], ◌∷◌, ◌≡◌, ◌<◌};
ghost use Rattle.checks.specs.Check as check;
ghost use Rattle.checks.specs.Stages.{number};
ghost use Rattle.swaps.specs.Outcome as swap;
ghost use Rattle.runs.specs.Run as run;
ghost use Rattle.relay_numbers.specs.Written.{wrote, written};
ghost use Rattle.relay_numbers.specs.Fits.{limit, Fits, NumberFits};

use checks::Refusal;
use runs::Slice;
use swap_ways::Way;

// The first numbers of three answers that are no refusal, as C reads them: include/relay.h declares them.
const NO_ROOM: u32 = 100;

const PAUSED: u32 = 101;

const LOG_SHORT: u32 = 102;

// The numbers at the front of the list; how many, or 0 where they don't fit.
#[tactic(auto, using(crate::proofs::Laws::writing))]
pub fn write(list: &mut [u32], numbers: &[u32]) -> usize
    ensures { wrote result list.new ≡ written list.old numbers.now }
{
    let m = numbers.len();
    if list.len() < m {
        return 0;
    }
    list[..m].copy_from_slice(numbers);
    m
}

pub fn tell_refusal(answer: &mut [u32], refusal: Refusal) -> usize
    requires { refusal.place < limit }
    ensures { wrote result answer.new ≡ written answer.old (number refusal.fault ∷ refusal.place ∷ []) }
{
    let number = u32::from(u8::from(refusal.fault));
    let place = refusal.place as u32;
    write(answer, &[number, place])
}

// What Check and Recover answer: how many records are used, or how many entries were put back.
pub fn tell_number(answer: &mut [u32], a: Result<usize, Refusal>) -> usize
    requires { NumberFits a }
    ensures { wrote result answer.new ≡ written answer.old (check.numbers a) }
{
    match a {
        Ok(number) => write(answer, &[0, number as u32]),
        Err(refusal) => tell_refusal(answer, refusal),
    }
}

pub fn tell_swap(answer: &mut [u32], a: Result<Way, Refusal>) -> usize
    requires { Fits (swap.numbers a) }
    ensures { wrote result answer.new ≡ written answer.old (swap.numbers a) }
{
    match a {
        Ok(Way::Clear) => write(answer, &[0]),
        Ok(Way::NoRoom(lack)) => write(
            answer,
            &[
                NO_ROOM,
                lack.level as u32,
                lack.needed as u32,
                lack.free as u32,
            ],
        ),
        Ok(Way::LogShort(short)) => write(
            answer,
            &[
                LOG_SHORT,
                short.level as u32,
                short.needed as u32,
                short.held as u32,
            ],
        ),
        Err(refusal) => tell_refusal(answer, refusal),
    }
}

pub fn tell_run(answer: &mut [u32], a: Result<Slice, Refusal>) -> usize
    requires { Fits (run.numbers a) }
    ensures { wrote result answer.new ≡ written answer.old (run.numbers a) }
{
    match a {
        Ok(Slice::Done { swaps, left }) => write(answer, &[0, swaps as u32, left as u32]),
        Ok(Slice::NoRoom { swaps, left, lack }) => write(
            answer,
            &[
                NO_ROOM,
                swaps as u32,
                left as u32,
                lack.level as u32,
                lack.needed as u32,
                lack.free as u32,
            ],
        ),
        Ok(Slice::LogShort { swaps, left, short }) => write(
            answer,
            &[
                LOG_SHORT,
                swaps as u32,
                left as u32,
                short.level as u32,
                short.needed as u32,
                short.held as u32,
            ],
        ),
        Ok(Slice::Paused { swaps, left }) => write(answer, &[PAUSED, swaps as u32, left as u32]),
        Err(refusal) => tell_refusal(answer, refusal),
    }
}
