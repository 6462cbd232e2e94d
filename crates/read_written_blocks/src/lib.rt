// How many blocks an update writes, and how many words the memory has.
#![tactic(auto)]

ghost use Rattle.std.specs.Prelude.{◌≡◌, cond, ◌≤◌, ◌<◌, ◌+◌, ◌*◌, ◌==◌};
ghost use Rattle.std.specs.List.{list_any};
ghost use Rattle.spec_format.specs.Plan.{block_of, target};

use read_tables::target_of;
use spec_format::{Move, Sizes};

// Whether one of the moves writes the block that m writes, where blocks have this size.
fn writes_block(moves: &[Move], m: Move, size: usize) -> bool
    requires { 0 < size }
    ensures { result ≡ list_any (λ n. block_of size (target n) == block_of size (target m)) moves.now }
{
    let block = target_of(m) as usize / size;
    moves.iter().any(|n| target_of(*n) as usize / size == block)
}

// A count of blocks of this size with one more move: one block more, unless one of the moves writes the block of m.
pub fn blocks_with(moves: &[Move], m: Move, size: usize, blocks: usize) -> usize
    requires some_words { 0 < size }
    requires few { blocks ≤ 8 }
    ensures { result
        ≡ cond (list_any (λ n. block_of size (target n) == block_of size (target m)) moves.now) blocks (blocks + 1) }
{
    if writes_block(moves, m, size) {
        return blocks;
    }
    blocks + 1
}

// How many words the memory has.
pub fn memory_of(sizes: Sizes) -> u32
    requires blocks { sizes.blocks ≤ 16 }
    requires words { sizes.words ≤ 16 }
    ensures value { result ≡ sizes.blocks * sizes.words }
    ensures most { result ≤ 256 }
{
    sizes.blocks as u32 * sizes.words as u32
}
