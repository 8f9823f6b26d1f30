// The rule that a file names, as a rule like any other.
ghost use Rattle.std.specs.Prelude.{◌≡◌, refl};
ghost use Rattle.rules.specs.Orders.{ranks_orders};
ghost use Rattle.checkfile.specs.Rules.{kind_of_rule, places_of, cost_of_place};
ghost use Rattle.checkfile.specs.Ranks.{ranks_of};
ghost use Rattle.checkfile.specs.Lawful.{file_ranks};
ghost use Rattle.checkfile.specs.Making.{CostsAre, MadeOf};

use crate::kind::Kind;
use crate::lent::{LentCosts, LentRule, numbers};
use queue::ranking::Ranking;
use rules::basic::{Plain, Weight};
use rules::cost::Cost;
use rules::rule::Rule;

// An enum and no `dyn Rule`, since reading hands it out.
#[derive(Clone, Copy)]
pub enum FileRule {
    Plain(Plain),
    Weight(Weight),
    Cost(Cost),
}

impl FileRule {
    // The rule with its costs out of the file.
    pub(crate) fn new(rule: &LentRule<'_>) -> FileRule
        ensures { MadeOf rule.now result }
    {
        match rule {
            LentRule::Plain(places) => FileRule::Plain(Plain::from(*places)),
            LentRule::Weight(places) => FileRule::Weight(Weight::from(*places)),
            LentRule::Cost(costs) => FileRule::Cost(priced(costs)),
        }
    }

    pub fn kind(&self) -> Kind
        ensures { result ≡ kind_of_rule self.now }
    {
        match self {
            FileRule::Plain(_) => Kind::Plain,
            FileRule::Weight(_) => Kind::Weight,
            FileRule::Cost(_) => Kind::Cost,
        }
    }

    pub fn n(&self) -> usize
        ensures { result ≡ places_of self.now }
    {
        self.places()
    }

    // The cost of a place, counted from 0; 0 where there is none.
    pub fn cost(&self, place: usize) -> u16
        ensures { result ≡ cost_of_place self.now place }
    {
        match self {
            FileRule::Plain(_) | FileRule::Weight(_) => 0,
            FileRule::Cost(rule) => rule.cost(place),
        }
    }
}

// A rule by cost, with the costs that a file has.
fn priced(costs: &LentCosts<'_>) -> Cost
    ensures { CostsAre costs.now result }
{
    let n = costs.places.get();
    Cost::new(n, &numbers(costs.bytes)[0..n]).rule
}

impl Ranking<u64> for FileRule {
    ghost before = { λ s. (ranks_of s).before };

    ghost orders = { λ s. ranks_orders _ (file_ranks s) };

    fn before(&self, u: u64, v: u64) -> bool {
        match self {
            FileRule::Plain(rule) => rule.before(u, v),
            FileRule::Weight(rule) => rule.before(u, v),
            FileRule::Cost(rule) => rule.before(u, v),
        }
    }
}

impl Rule for FileRule {
    ghost ranks = { ranks_of };

    ghost lawful = { file_ranks };

    ghost agrees = { λ s u v. refl };

    fn places(&self) -> usize {
        match self {
            FileRule::Plain(rule) => rule.places(),
            FileRule::Weight(rule) => rule.places(),
            FileRule::Cost(rule) => rule.places(),
        }
    }

    fn is_by_weight(&self) -> bool {
        match self {
            FileRule::Plain(rule) => rule.is_by_weight(),
            FileRule::Weight(rule) => rule.is_by_weight(),
            FileRule::Cost(rule) => rule.is_by_weight(),
        }
    }
}
