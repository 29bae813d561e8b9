// The levels of a record's image, counted along its stream: the first position below 64 levels, which is 10's place.
#![tactic(auto)]

ghost use Rattle.std.specs.Prelude.{◌≡◌, List, map, ℕ, ◌+◌, ◌-◌, ◌<◌, ◌≤◌, length, Err, IfErr};
ghost use Rattle.words.specs.Reply.{no_at, mapped};
ghost use Rattle.trees.specs.Preorder.{preorder};
ghost use Rattle.trees.specs.Shape.{read_tree, tree_most, depth_most};
ghost use Rattle.records.specs.Records.{Element, Labels, bytes_of, image, spell};
ghost use Rattle.records.specs.Symbols.{RecordSymbols};

use words::No;

// 10 at a position.
fn deeper_at(place: usize) -> Result<(), No>
    ensures { result ≡ Err (no_at 10 place) }
{
    Err(No { number: 10, place })
}

// How many levels are left behind a byte: those that wait if it is the leaf, else those below it.
fn left_after(byte: u8, leaf: u8, waits: u8, below: u8) -> u8
    ensures { (byte ≡ leaf → result ≡ waits) × ((byte ≡ leaf → ⊥) → result ≡ below) }
{
    if byte == leaf { waits } else { below }
}

// How many places of the stack are taken behind a byte: one fewer if it is the leaf, else one more.
fn top_after(byte: u8, leaf: u8, top: usize) -> usize
    requires { (0 < top) × (top ≤ depth_most) }
    ensures { (byte ≡ leaf → result ≡ top - 1) × ((byte ≡ leaf → ⊥) → result ≡ top + 1) }
{
    if byte == leaf { top - 1 } else { top + 1 }
}

// Whether the image of a record has at most 64 levels, or 10 at its first position that is deeper. These are the record's bytes with
// `leaf` in place of ff; so they may be the image's own too, all but the last, where `leaf` is the last symbol.
pub fn levels(bytes: &[u8], leaf: u8) -> Result<(), No>
    ensures only_ten { IfErr result (λ no. no.number ≡ 10) }
    ensures told { (ar : List ℕ) (a : ℕ) (r : Element) → RecordSymbols ar a → Labels a r → a ≤ leaf
        → bytes.now ≡ map (spell leaf) (bytes_of r) → length bytes.now < tree_most
        → result ≡ mapped (λ t. tt) (read_tree ar (preorder (image a r))) }
{
    // How many levels are left for what is next, and on the stack for what waits behind it; its lowest place, 0, for what is behind all.
    let mut stack = [0u8; layout::LEVELS + 1];
    let mut top: usize = 1;
    let mut left = layout::LEVELS as u8;
    for (i, byte) in bytes.iter().enumerate() {
        if left == 0 {
            return deeper_at(i);
        }
        // What would wait is stored whatever the byte is, so that no branch goes by it.
        let waits = stack[top - 1];
        let below = left - 1;
        stack[top] = below;
        left = left_after(*byte, leaf, waits, below);
        top = top_after(*byte, leaf, top);
    }
    if left == 0 {
        return deeper_at(bytes.len());
    }
    Ok(())
}
