// Comparing the words of two rules of two opened tables, letter by letter. Nothing is asked of the lent bytes and numbers:
// each contract speaks of every two tables that they mean, which may be one.
#![tactic(auto)]

ghost use Rattle.std.specs.Prelude.{◌≡◌, List, ◌<◌, length};
ghost use Rattle.std.proofs.Math.Option.{some};
ghost use Rattle.words.specs.Told.{Told};
ghost use Rattle.words.specs.Word.{Word};
ghost use Rattle.machine.specs.Machine.{Child, Row, Table};
ghost use Rattle.machine.specs.Twins.{Rests, Rules};
ghost use Rattle.layout.specs.Layout.{frames_size};
ghost use Rattle.layout.specs.Leaves.{Spot};
ghost use Rattle.same_words.specs.Words.{Any, RowIn};

use layout::OpenTable;

// Whether two words are equal.
fn same_letters(a: &[u8], b: &[u8]) -> bool
    ensures { Told (a.now ≡ b.now) result }
{
    a == b
}

// Whether the words at two spots are equal.
fn same_word(frames: &[u8], p: usize, frames2: &[u8], s: usize) -> bool
    ensures { (u v : Word) (cs ds : List Child) → Spot frames.now u cs p → Spot frames2.now v ds s → Told (u ≡ v) result }
{
    same_letters(
        word_leaves::word_at(frames, p),
        word_leaves::word_at(frames2, s),
    )
}

// Whether the words from two spots on are equal in turn, with as many children behind each.
fn words_from(frames: &[u8], p: usize, frames2: &[u8], s: usize, kids: usize) -> bool
    requires { (p < frames_size) × (s < frames_size) }
    ensures { (u v : Word) (cs ds : List Child) → length frames.now ≡ frames_size → length frames2.now ≡ frames_size
        → Spot frames.now u cs p → Spot frames2.now v ds s → kids ≡ length cs → kids ≡ length ds
        → Told ((u ≡ v) × Rests Any cs ds) result }
{
    let mut a = p;
    let mut b = s;
    for i in 0..kids {
        if !same_word(frames, a, frames2, b) {
            return false;
        }
        a = word_leaves::next_spot(frames, a);
        b = word_leaves::next_spot(frames2, b);
    }
    same_word(frames, a, frames2, b)
}

// Whether two rules have as many children and the same words in turn, by what is kept for them. Counts are compared first.
pub fn same_words_in(first: &OpenTable<'_, '_>, x: u64, second: &OpenTable<'_, '_>, y: u64) -> bool
    ensures { (M N : Table) (a b : Row) → RowIn first.now.frames.now first.now.numbers.now M a x
        → RowIn second.now.frames.now second.now.numbers.now N b y → Told (Rules Any (some a.rule) (some b.rule)) result }
{
    if rule_leaves::letters_in(x) != rule_leaves::letters_in(y) {
        return false;
    }
    let kids = rule_leaves::kids_in(x);
    if kids != rule_leaves::kids_in(y) {
        return false;
    }
    let p = rule_leaves::spot_of(first.numbers, rule_leaves::number_in(x));
    let s = rule_leaves::spot_of(second.numbers, rule_leaves::number_in(y));
    words_from(first.frames, p, second.frames, s, kids)
}
