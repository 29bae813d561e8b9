// Comparing the rules of two states of opened tables: words by their letters, children by a byte for each state of each table.
// The rules of one state are gone through, and the other's rule for the same symbol is looked up.
// Nothing is asked of the lent bytes and numbers: each contract speaks of every two tables that they mean, which may be one.
#![tactic(auto)]

ghost use Rattle.std.specs.Prelude.{List, ℕ, ◌<◌, ◌≤◌};
ghost use Rattle.words.specs.Told.{Told};
ghost use Rattle.machine.specs.Machine.{Row, Table, find};
ghost use Rattle.machine.specs.Twins.{Match};
ghost use Rattle.machine.specs.Twins as twins;
ghost use Rattle.text.specs.Limits.{rows_most};
ghost use Rattle.layout.specs.Layout.{Opened};
ghost use Rattle.layout.specs.Leaves.{RulesOf};
ghost use Rattle.layout.specs.Kids.{Alike};
ghost use Rattle.same_words.specs.Words.{Any};
ghost use Rattle.same_rules.specs.Compared.{RowOf};

use layout::{OpenTable, STATES};
use rule_leaves::Rules;
use same_words::same_words_in;

// Whether rule i, of state q, and the rule of r for its symbol have as many children and the same words in turn.
fn same_shape(
    first: &OpenTable<'_, '_>,
    q: usize,
    i: usize,
    second: &OpenTable<'_, '_>,
    r: usize,
) -> bool
    requires { i < rows_most }
    ensures { (M N : Table) (a : Row) → Opened first.now.frames.now first.now.numbers.now M
        → Opened second.now.frames.now second.now.numbers.now N → RowOf M q i a → r < N.states
        → Told (twins.Rules Any (find M.rows q a.symbol) (find N.rows r a.symbol)) result }
{
    let f = rule_leaves::symbol_of(first.numbers, i);
    let y = rule_leaves::kept_for(second.numbers, r, f);
    if y == 0 {
        return false;
    }
    same_words_in(first, rule_leaves::kept_for(first.numbers, q, f), second, y)
}

// Whether the rows of q and r match up to the children's states: the same rules are there, with the same words in turn.
pub fn same_shapes<'a>(
    first: &OpenTable<'a, 'a>,
    q: usize,
    mine: Rules,
    second: &OpenTable<'a, 'a>,
    r: usize,
) -> bool
    requires { (mine.from ≤ rows_most) × (mine.to ≤ rows_most) }
    ensures { (M N : Table) → Opened first.now.frames.now first.now.numbers.now M
        → Opened second.now.frames.now second.now.numbers.now N → RulesOf M q mine.from mine.to → r < N.states
        → Told (Match M N Any q r) result }
{
    for i in mine.from..mine.to {
        if !same_shape(first, q, i, second, r) {
            return false;
        }
    }
    let others = rule_leaves::rules_of(second.numbers, r);
    mine.to + others.from == others.to + mine.from
}

// Whether the children of rule i, of state q, and of the rule of r for its symbol are alike, each in turn.
fn same_kids(
    numbers: &[u64],
    map: &[u8; STATES],
    q: usize,
    i: usize,
    numbers2: &[u64],
    map2: &[u8; STATES],
    r: usize,
) -> bool
    requires { i < rows_most }
    ensures { (F G : List ℕ) (M N : Table) (a : Row) → Opened F numbers.now M → Opened G numbers2.now N
        → RowOf M q i a → r < N.states → twins.Rules Any (find M.rows q a.symbol) (find N.rows r a.symbol)
        → Told (twins.Rules (Alike map.now map2.now) (find M.rows q a.symbol) (find N.rows r a.symbol)) result }
{
    let f = rule_leaves::symbol_of(numbers, i);
    rule_leaves::kids_alike(
        map,
        rule_leaves::kept_for(numbers, q, f),
        map2,
        rule_leaves::kept_for(numbers2, r, f),
    )
}

// Whether the rows of q and r match with children that are alike, where they are known to match up to the children's states.
pub fn same_children(
    numbers: &[u64],
    map: &[u8; STATES],
    q: usize,
    mine: Rules,
    numbers2: &[u64],
    map2: &[u8; STATES],
    r: usize,
) -> bool
    requires { mine.to ≤ rows_most }
    ensures { (F G : List ℕ) (M N : Table) → Opened F numbers.now M → Opened G numbers2.now N
        → RulesOf M q mine.from mine.to → r < N.states → Match M N Any q r
        → Told (Match M N (Alike map.now map2.now) q r) result }
{
    for i in mine.from..mine.to {
        if !same_kids(numbers, map, q, i, numbers2, map2, r) {
            return false;
        }
    }
    true
}
