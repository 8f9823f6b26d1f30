// A queue over lent memory, which gives the first item by a ranking.
ghost use Rattle.std.specs.Prelude.{◌≤◌, length};

use crate::ranking::Ranking;
use crate::sift::{rise, take_first};
use refusals::Refusal;

// The first `held` places hold the items, as a heap under the ranking that comes with each call. A slice with its count, and
// no `Vec`, since the memory is lent.
#[derive(Drop)]
pub struct Queue<'a, T> {
    places: &'a mut [T],
    held: usize,
    ghost within: { held ≤ length places.now },
}

impl<'a, T: Copy> Queue<'a, T> {
    ghost use Rattle.std.specs.Prelude.{◌≡◌, length, MatchOption, MatchResult};
    ghost use Rattle.queue.specs.Contents.{count_of, places_of, lender_of, Fresh, Refused, Accepted, Empty, Taken};

    pub fn new(places: &'a mut [T]) -> Queue<'a, T>
        ensures fresh { Fresh places.old result }
        ensures lender { lender_of result ≡ places.entry.ghost_name }
    {
        Queue { places, held: 0 }
    }

    pub fn len(&self) -> usize
        ensures { result ≡ count_of self.now }
    {
        self.held
    }

    pub fn put<R: Ranking<T>>(&mut self, ranking: &R, item: T) -> Result<(), Refusal>
        ensures answer { MatchResult result (λ _. Accepted (R.before ranking.now) item self.old self.new) (λ refusal. Refused refusal self.old self.new) }
        ensures long { length (places_of self.new) ≡ length (places_of self.old) }
        ensures lender { lender_of self.new ≡ lender_of self.old }
    {
        if self.held == self.places.len() {
            return Err(Refusal::QueueFull);
        }
        self.places[self.held] = item;
        self.held += 1;
        rise(&mut self.places[..self.held], ranking);
        Ok(())
    }

    pub fn take<R: Ranking<T>>(&mut self, ranking: &R) -> Option<T>
        ensures answer { MatchOption result (Empty self.old self.new) (λ item. Taken (R.before ranking.now) item self.old self.new) }
        ensures long { length (places_of self.new) ≡ length (places_of self.old) }
        ensures lender { lender_of self.new ≡ lender_of self.old }
    {
        if self.held == 0 {
            return None;
        }
        let item = take_first(&mut self.places[..self.held], ranking);
        self.held -= 1;
        Some(item)
    }
}
