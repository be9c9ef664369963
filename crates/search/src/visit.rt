ghost use Rattle.std.specs.Prelude.{◌≡◌, ◌≤◌, length, Some};
ghost use Rattle.model.specs.Sieves.{Genuine, Standing as IsStanding};
ghost use Rattle.search.specs.Courses.{subject_on};
ghost use Rattle.search.specs.Visits.{Did};

use crate::course::Course;
use crate::outcome::Counts;
use model::Standing;
use rounds::steps::next_state;
use sets::is_part;
use sieve::sieve::Sieve;

// Opens a standing and walks on from it; true where a plan was found, whose rounds from t on are then on the strip.
pub(crate) fn visit<S: Sieve>(
    course: &Course,
    sieve: &mut S,
    at: Standing,
    counts: &mut Counts,
    strip: &mut [u64],
) -> bool
    requires genuine { Genuine (subject_on course.now) }
    requires standing { IsStanding (subject_on course.now) at.state at.t }
    requires room { (subject_on course.now).card.rounds ≤ length strip.old }
    requires known { S.Sieve.kept (S.Sieve.meaning sieve.old) }
    requires begun { S.Sieve.rules.subject (S.Sieve.meaning sieve.old) ≡ Some (subject_on course.now) }
    ensures { Did S.Sieve.rules (subject_on course.now) at.state at.t (S.Sieve.meaning sieve.old) counts.old strip.old result (S.Sieve.meaning sieve.new) counts.new strip.new }
{
    counts.opened = counts.opened.saturating_add(1);
    if at.t == course.card.rounds() {
        if is_part(course.masks.book.outline.goal, at.state) {
            return true;
        }
        sieve.told(at);
        return false;
    }
    // No iter::successors: it would look for the next round before this one is walked, and a walk that finds a plan would do
    // that in vain at each round.
    let mut after = None;
    while let Some(round) = course.open_round(at, after) {
        after = Some(round);
        let next = Standing {
            state: next_state(&course.masks.book, at.state, round),
            t: at.t + 1,
        };
        if sieve.drops_start(at, round) || sieve.drops_standing(next) {
            counts.dropped = counts.dropped.saturating_add(1);
        } else if visit(course, sieve, next, counts, strip) {
            strip[at.t as usize] = round;
            return true;
        }
    }
    sieve.told(at);
    false
}
