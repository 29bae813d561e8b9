// Going through a rule's words and children: a spot is where a word stands, with the rule's remaining children behind it.
ghost use Rattle.std.specs.Prelude.{◌≡◌, ◌<◌, List, ◌∷◌, length};
ghost use Rattle.words.specs.Word.{Word};
ghost use Rattle.machine.specs.Machine.{Child};
ghost use Rattle.layout.specs.Layout.{frames_size};
ghost use Rattle.layout.specs.Leaves.{Spot};

use layout::{behind, stretch};

// The word at a spot, as a stretch of the lent bytes.
pub fn word_at(frames: &[u8], p: usize) -> &[u8]
    ensures result_len_bound { length result.now < 256 }
    ensures result_value { (u : Word) (cs : List Child) → Spot frames.now u cs p → result.now ≡ u }
{
    stretch(frames, p)
}

// The spot of the word behind the child behind the word at a spot.
pub fn next_spot(frames: &[u8], p: usize) -> usize
    requires { p < frames_size }
    ensures upper_bound { result < frames_size }
    ensures spot { (u : Word) (c : Child) (cs : List Child) → length frames.now ≡ frames_size → Spot frames.now u (c ∷ cs) p
        → Spot frames.now c.after cs result }
{
    let s = behind(frames, p) + 1;
    if s < 16448 { s } else { 0 }
}
