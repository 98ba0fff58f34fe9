//! Where a reader stands, in numbers.

ghost use Rattle.std.specs.Prelude.{◌≡◌, ◌↔◌, ◌<◌, ℕ, IfSome, IsTrue, is_some};
ghost use Rattle.irig_reader.specs.Rule.{count_of};
ghost use Rattle.c_numbers.specs.Numbers.{mark_in, number_of_mark};
ghost use Rattle.c_numbers.specs.States.{state_in, IsState};

use irig_hold::Hold;
use irig_reader::State;
use irig_time::{Mark, UtcSecond, valid};

/// Where a reader stands between two edges.
#[repr(C)]
#[derive(Clone, Copy, Drop)]
pub struct IrigState {
    /// 0 is idle, 1 acquiring, 2 locked.
    pub kind: u8,
    /// The votes so far while it is acquiring.
    pub count: u8,
    /// What it heard of the leap at the end of the day: 0 nothing, 1 that there is none, 2 an
    /// insertion, 3 a deletion.
    pub heard: u8,
    /// The day of the second at which it stands.
    pub day: u32,
    /// That second of the day.
    pub sod: u32,
    /// The edges since the last vote.
    pub age: u32,
}

/// The state of a reader that has nothing to go on.
pub const IDLE: IrigState = IrigState {
    kind: 0,
    count: 0,
    heard: 0,
    day: 0,
    sod: 0,
    age: 0,
};

/// The state, unless a number has no meaning, its second is none, or its votes are too many for a
/// reader that locks after so many.
pub fn state_of(state: &IrigState, lock_after: u8) -> Option<State>
    requires { 0 < lock_after }
    ensures is { IfSome result (λ s. s ≡ state_in state.now) }
    ensures counting { IfSome result (λ s. count_of s < lock_after) }
    ensures there { IsTrue (is_some result) ↔ IsState lock_after state.now }
{
    if state.kind == 0 {
        return Some(State::Idle);
    }
    let last = UtcSecond {
        day: state.day,
        sod: state.sod,
    };
    if !valid(&last) || state.heard > 3 {
        return None;
    }
    let hold = Hold::of(last, state.age, mark_of(state.heard));
    match state.kind {
        1 if state.count < lock_after => Some(State::Acquiring(hold, state.count)),
        2 => Some(State::Locked(hold)),
        _ => None,
    }
}

/// A state as C holds it.
pub fn state_for_c(state: &State) -> IrigState
    ensures is { state_in result ≡ state.now }
    ensures state { (n : ℕ) → count_of state.now < n → IsState n result }
{
    match state {
        State::Idle => IDLE,
        State::Acquiring(hold, count) => held(1, *count, hold.now(), hold.age(), hold.heard()),
        State::Locked(hold) => held(2, 0, hold.now(), hold.age(), hold.heard()),
    }
}

fn held(kind: u8, count: u8, last: UtcSecond, age: u32, heard: Mark) -> IrigState
    ensures { result ≡ record {
      kind = kind;
      count = count;
      heard = number_of_mark heard;
      day = last.day;
      sod = last.sod;
      age = age;
    } }
{
    IrigState {
        kind,
        count,
        heard: mark_number(heard),
        day: last.day,
        sod: last.sod,
        age,
    }
}

/// The mark with this number, as [`IrigState`] has them; any other is a deletion.
pub fn mark_of(number: u8) -> Mark
    ensures { result ≡ mark_in number }
{
    match number {
        0 => Mark::Unspoken,
        1 => Mark::NoLeap,
        2 => Mark::Insert,
        _ => Mark::Delete,
    }
}

pub(crate) fn mark_number(mark: Mark) -> u8
    ensures number { result ≡ number_of_mark mark }
    ensures back { mark_in result ≡ mark }
{
    match mark {
        Mark::Unspoken => 0,
        Mark::NoLeap => 1,
        Mark::Insert => 2,
        Mark::Delete => 3,
    }
}
