//! The parts of a run's steps: those before the scenario's first frame, those of the workers, the drain.
ghost use Rattle.std.specs.Prelude.{◌≡◌, ◌≤◌, ℕ, length, nat_le, drop, IfSome};
ghost use Rattle.std.specs.List.{list_all, position_or_len};
ghost use Rattle.std.specs.Option.{option_map};
ghost use Rattle.br_model.specs.Program.LiveRun.{is_frame, may_drain, parts_at, ends_with_publish};

use br_model::steps::Step;

/// How many steps stand before the first frame.
pub(crate) fn before_frame(steps: &[Step]) -> usize
    ensures value { result ≡ position_or_len is_frame steps.now }
    ensures within { result ≤ length steps.now }
{
    for place in 0..steps.len() {
        if steps[place].is_frame() {
            return place;
        }
    }
    steps.len()
}

/// How many steps the first part has, if there is one.
pub(crate) fn first_part(opening: &[Step], steps: &[Step]) -> Option<usize>
    ensures value { result ≡ option_map (λ p. length p.first) (parts_at opening.now steps.now) }
    ensures within { IfSome result (λ n. n ≤ length steps.now) }
{
    let mut taken = 0;
    for place in 0..steps.len() {
        if taken == opening.len() {
            return Some(place);
        }
        if steps[place] == opening[taken] {
            taken += 1;
        } else if !steps[place].is_publish() {
            return None;
        }
    }
    if taken == opening.len() {
        Some(steps.len())
    } else {
        None
    }
}

/// How many steps stand before the drain.
pub(crate) fn before_drain(steps: &[Step]) -> usize
    ensures within { result ≤ length steps.now }
    ensures drain { (k : ℕ) → list_all may_drain (drop k steps.now) ≡ nat_le result k }
{
    let mut place = steps.len();
    while place > 0 && steps[place - 1].may_drain() {
        place -= 1;
    }
    place
}

pub(crate) fn ends_with_publish(steps: &[Step]) -> bool
    ensures { result ≡ ends_with_publish steps.now }
{
    let count = steps.len();
    count > 0 && steps[count - 1].is_publish()
}
