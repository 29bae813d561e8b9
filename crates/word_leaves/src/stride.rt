// Going through a rule's words by their lengths: nothing is read twice, and no slice is made where an end of a word is all that is wanted.
// The bytes, the spot and the letters of the word there stay three arguments: two loops use them so, and a struct of them would need
// the premises that its spot is one and its letters are the word's in each contract, as now.
ghost use Rattle.std.specs.Prelude.{◌≡◌, ℕ, ◌<◌, List, ◌∷◌, length, slice_index};
ghost use Rattle.words.specs.Word.{Word};
ghost use Rattle.text.specs.Limits.{states_most};
ghost use Rattle.machine.specs.Machine.{Child};
ghost use Rattle.layout.specs.Layout.{frames_size};
ghost use Rattle.layout.specs.Leaves.{Spot};

use layout::byte;

// How many letters the word at a spot has.
pub fn letters_at(frames: &[u8], p: usize) -> usize
    ensures upper_bound { result < 256 }
    ensures value { (u : Word) (cs : List Child) → Spot frames.now u cs p → result ≡ length u }
{
    usize::from(byte(frames, p))
}

// Letter k of the word at a spot.
pub fn letter_at(frames: &[u8], p: usize, k: usize) -> u8
    requires { k < 256 }
    ensures { (u : Word) (cs : List Child) → Spot frames.now u cs p → k < length u → result ≡ slice_index u k }
{
    byte(frames, std::num::wrapping_add_usize(p, k + 1))
}

// The state of the child behind the word at a spot, which has n letters.
pub fn state_past(frames: &[u8], p: usize, n: usize) -> usize
    requires { n < 256 }
    ensures upper_bound { result < states_most }
    ensures value { (u : Word) (c : Child) (cs : List Child) → Spot frames.now u (c ∷ cs) p → n ≡ length u → c.state < states_most
        → result ≡ c.state }
{
    usize::from(byte(frames, std::num::wrapping_add_usize(p, n + 1))) % 64
}

// The spot of the word behind that child.
pub fn spot_past(p: usize, n: usize) -> usize
    requires { n < 256 }
    ensures { (F : List ℕ) (u : Word) (c : Child) (cs : List Child) → length F ≡ frames_size → Spot F u (c ∷ cs) p → n ≡ length u
        → Spot F c.after cs result }
{
    std::num::wrapping_add_usize(p, n + 2)
}
