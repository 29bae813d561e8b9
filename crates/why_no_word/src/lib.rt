// The answer of the word call, and why there is no word: the refusal of tree bytes that are no tree
// with a word, and its place.
#![tactic(auto)]

ghost use Rattle.std.specs.Prelude.{◌≡◌};
ghost use Rattle.words.specs.Reply.{refused};
ghost use Rattle.layout.specs.Lent.{Means};
ghost use Rattle.walk.specs.Walked.{Wordless};
ghost use Rattle.promises.specs.Word.{word_on};
ghost use Rattle.why_no_word.specs.Answer.{place_of};

use layout::OpenTable;
use walk::Lack;
use words::No;

// A word's length and its number of terms.
#[derive(Clone, Copy)]
pub struct Letters {
    pub length: usize,
    pub terms: usize,
}

// Where a walk stopped: the first position without a rule, where one is lacking.
fn place_of(walk: Result<usize, Lack>) -> usize
    ensures { result ≡ place_of walk }
{
    match walk {
        Ok(place) => place,
        Err(lack) => lack.place,
    }
}

// Why there is no word, where there is none: 6, 7, 8, 10, 11 for the tree's shape, else 9 at the
// first position without a rule.
pub fn why(table: &OpenTable<'_, '_>, tree: &[u8]) -> No
    ensures { Means table.now (λ M. Wordless M tree.now M.start
        → word_on M tree.now ≡ refused result.number result.place) }
{
    if let Err(refusal) = shape::check(table, tree) {
        return refusal;
    }
    let start = layout::start(table.numbers);
    let walk = walk::lacking(layout::LEVELS, table.numbers, tree, 0, start);
    No {
        number: 9,
        place: place_of(walk),
    }
}
