// Which states of an opened table are twins, so that in an earliest one they have the same words: classes by rounds.
// All states begin in one class. A round leaves two states of a class together if their rows match up to the classes;
// the rounds end when one parts no class.
// Nothing is asked of the lent bytes and numbers: each contract speaks of every table that they mean.
#![tactic(auto)]

ghost use Rattle.std.specs.Prelude.{◌≡◌, ℕ, ◌<◌, ◌≤◌, length, get_or};
ghost use Rattle.text.specs.Limits.{states_most};
ghost use Rattle.layout.specs.Lent.{Means};
ghost use Rattle.class_round.specs.Round.{NumbersRaised};
ghost use Rattle.classes.specs.Classes.{TwinClasses, ClassNumbers};
ghost use Rattle.classes.specs.Taking.{ClassPut, Adopted};

use class_round::round;
use layout::{NUMBERS, OpenTable, STATES};

// Stores v at q, and says how many entries that changed: 0 or 1.
fn put(rep: &mut [u8], q: usize, v: u8) -> usize
    requires { (q < length rep.old) × (get_or rep.old q 0 ≤ v) × (v ≤ states_most) }
    ensures { ClassPut rep.old q v rep.new result }
{
    let k = if rep[q] == v { 0 } else { 1 };
    rep[q] = v;
    k
}

// Takes over the first n entries of next, and says how many entries that changed: by this count the rounds are proved to end.
fn adopt(n: usize, next: &[u8; STATES], rep: &mut [u8; STATES]) -> usize
    requires { (n ≤ states_most) × NumbersRaised n rep.old next.now }
    ensures { Adopted n next.now rep.old rep.new result }
{
    let mut k: usize = 0;
    for q in 0..n {
        k += put(rep, q, next[q]);
    }
    k
}

// The rounds, until one parts no class.
fn rounds(table: &OpenTable<'_, '_>, n: usize, rep: &mut [u8; STATES])
    requires { (n ≤ states_most) × ((q : ℕ) → get_or rep.old q 0 ≡ 0) }
    ensures class_numbers { ClassNumbers rep.new }
    ensures meant { Means table.now (λ M. n ≡ M.states
        → TwinClasses M rep.new) }
{
    let mut next = [0u8; STATES];
    let mut first = true;
    // How many rounds there are shows only in the last, so no range counts them.
    loop {
        round(first, table, n, rep, &mut next);
        let k = adopt(n, &next, rep);
        if k == 0 {
            return;
        }
        first = false;
    }
}

// Puts the states of an opened table into classes: states have one number, the least of them, exactly when they are twins.
pub fn part(table: &OpenTable<'_, '_>, rep: &mut [u8; STATES])
    ensures class_numbers { ClassNumbers rep.new }
    ensures meant { Means table.now (λ M. TwinClasses M rep.new) }
{
    *rep = [0u8; STATES];
    // Reading asks how many numbers there are: it is told once here, so that no read in the rounds asks again.
    let Ok(numbers) = <&[u64; NUMBERS]>::try_from(table.numbers) else {
        return;
    };
    let table = &OpenTable {
        frames: table.frames,
        numbers,
    };
    rounds(table, layout::states(numbers), rep);
}
