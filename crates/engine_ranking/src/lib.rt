// Days by rank, as falling words. The word 0 is no day.
#![tactic(auto)]

ghost use Rattle.std.specs.Prelude.{◌≡◌, ◌+◌, min, take, set};
ghost use Rattle.engine_ranking.specs.Steps.{pushed, insert_all, no_words, most_words};

// The words of so many days, of which ten have a place; 0 stands after the last, as in `padded`. Ten plain words and no Options: a row of words is put in
// order in one pass with no branch.
#[derive(Clone, Copy, Debug, PartialEq, Eq)]
pub struct Ranking {
    pub words: [u64; 10],
    pub count: u32,
}

// A word put into a row, the least lost. One pass with no branch: each place keeps the greater of its own and the one in the hand.
fn push(row: &mut [u64], word: u64)
    ensures { row.new ≡ pushed word row.old }
{
    let mut carry = word;
    for here in row.iter_mut() {
        let own = *here;
        *here = carry.max(own);
        carry = carry.min(own);
    }
}

impl Ranking {
    // No day's word.
    pub fn new() -> Ranking
        ensures { result ≡ no_words }
    {
        Ranking {
            words: [0; 10],
            count: 0,
        }
    }

    // A word put into its place by rank, the least lost.
    pub fn insert(&mut self, word: u64)
        ensures words { self.new.words ≡ pushed word self.old.words }
        ensures count { self.new.count ≡ min (self.old.count + 1) most_words }
    {
        push(&mut self.words, word);
        self.count = self.count.saturating_add(1);
    }

    // A word put behind those that came before it; it is lost where there is no place for it.
    pub fn append(&mut self, word: u64)
        ensures words { self.new.words ≡ set self.old.words self.old.count word }
        ensures count { self.new.count ≡ min (self.old.count + 1) most_words }
    {
        let place = self.count;
        if place < 10 {
            self.words[place as usize] = word;
        }
        self.count = place.saturating_add(1);
    }

    // The first `count` words of another ranking, put in one after the other.
    pub fn insert_all(&mut self, others: &Ranking, count: usize)
        ensures words { self.new.words ≡ insert_all (take count others.now.words) self.old.words }
        ensures count { self.new.count ≡ min (self.old.count + count) most_words }
    {
        for &other in &others.words[..count.min(10)] {
            push(&mut self.words, other);
        }
        self.count = self
            .count
            .saturating_add(u32::try_from(count).unwrap_or(u32::MAX));
    }
}
