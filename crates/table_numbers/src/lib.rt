// Filling the numbers of an opened table: its head, its states' first rules, its rules by their
// numbers, what is kept for each state and symbol. What the table does not use is not written.
#![tactic(auto)]

ghost use Rattle.std.specs.Prelude.{◌≡◌, ◌++◌, ℕ, ◌+◌, ◌*◌, ◌/◌, ◌%◌, ◌<◌, ◌≤◌, get_or, drop};
ghost use Rattle.machine.specs.Machine.{Table};
ghost use Rattle.text.specs.Limits.{symbols_most};
ghost use Rattle.layout.specs.Layout.{firsts_from, rules_from, grid_from, rows_before};
ghost use Rattle.head_frames.specs.Staged.{blank, head_of};
ghost use Rattle.table_numbers.specs.Storing.{head_numbers, NumbersPut, RulesNoted, RulesPassed, entries_from, Filled};

use head_frames::{Head, Note};

// Where in the numbers the states' first rules stand, the rules, and what is kept for each state and
// symbol.
const FIRSTS: usize = 8;

const ROWS: usize = 80;

const GRID: usize = 592;

// The state of a row, by its number.
fn state_of(row: u64) -> usize
    ensures { result ≡ row / 8388608 % 64 }
{
    (row / 8388608 % 64) as usize
}

// The place of a row's state and symbol among those of all states, by its number.
fn key_of(row: u64) -> usize
    ensures { (result ≡ row / 131072 % 4096) × (result < 4096) }
{
    (row / 131072 % 4096) as usize
}

// Stores the head, and 0 in the two places behind it.
fn put_head(numbers: &mut [u64; layout::NUMBERS], head: Head)
    ensures { numbers.new ≡ head_numbers head ++ drop 8 numbers.old }
{
    numbers[..FIRSTS].copy_from_slice(&[
        head.symbols as u64,
        head.states as u64,
        head.start as u64,
        head.rules as u64,
        head.before as u64,
        head.after as u64,
        0,
        0,
    ]);
}

// The first of n rules, from number `from` on, whose state is not below q; n if there is none.
fn first_from(rules: &[Note; layout::RULES], n: usize, from: usize, q: usize) -> usize
    requires { (n ≤ 512) × (from ≤ n) }
    ensures rules_passed { (M : Table) → RulesNoted rules.now n M → RulesPassed M q from result }
    ensures lower_bound { (from ≤ result) × (result ≤ n) }
{
    for i in from..n {
        if q <= state_of(rules[i].row) {
            return i;
        }
    }
    n
}

// Stores for each state the number of its first rule, and behind them the number of rules.
fn put_firsts(
    numbers: &mut [u64; layout::NUMBERS],
    rules: &[Note; layout::RULES],
    n: usize,
    states: usize,
)
    requires { (n ≤ 512) × (states ≤ 64) }
    ensures { (M : Table) → RulesNoted rules.now n M
        → NumbersPut (λ q. rows_before q M.rows) firsts_from (states + 1) numbers.old numbers.new }
{
    let mut first = 0;
    for q in 0..states + 1 {
        first = first_from(rules, n, first, q);
        numbers[FIRSTS + q] = first as u64;
    }
}

// Stores each rule's number as a row, in turn.
fn put_rows(numbers: &mut [u64; layout::NUMBERS], rules: &[Note; layout::RULES], n: usize)
    requires { n ≤ 512 }
    ensures { NumbersPut (λ i. (get_or rules.now i blank).row) rules_from n numbers.old numbers.new }
{
    for i in 0..n {
        numbers[ROWS + i] = rules[i].row;
    }
}

// Clears the first n places of what is kept for states and symbols.
fn clear(numbers: &mut [u64; layout::NUMBERS], n: usize)
    requires { n ≤ 4096 }
    ensures { NumbersPut (λ _. 0) grid_from n numbers.old numbers.new }
{
    numbers[GRID..GRID + n].fill(0);
}

// Stores what is kept for the state and the symbol of each rule, where the places of all states are
// clear.
fn put_entries(numbers: &mut [u64; layout::NUMBERS], rules: &[Note; layout::RULES], n: usize)
    requires { n ≤ 512 }
    ensures { (M : Table) → RulesNoted rules.now n M
        → ((k : ℕ) → k < M.states * symbols_most → get_or numbers.old (grid_from + k) 0 ≡ 0)
        → NumbersPut (entries_from M 0) grid_from (M.states * symbols_most) numbers.old numbers.new }
{
    for i in (0..n).rev() {
        numbers[GRID + key_of(rules[i].row)] = rules[i].entry;
    }
}

// Stores the numbers of a table with this head and these rules.
pub fn fill(numbers: &mut [u64; layout::NUMBERS], head: Head, rules: &[Note; layout::RULES])
    requires { (head.states ≤ 64) × (head.rules ≤ 512) }
    ensures { (M : Table) → head ≡ head_of M → RulesNoted rules.now head.rules M
        → Filled numbers.old numbers.new M }
{
    let n = head.rules;
    let states = head.states;
    put_head(numbers, head);
    put_firsts(numbers, rules, n, states);
    put_rows(numbers, rules, n);
    clear(numbers, states * layout::SYMBOLS);
    put_entries(numbers, rules, n);
}
