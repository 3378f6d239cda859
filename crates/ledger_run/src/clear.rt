// The needed places of a table set to one value, as refusal 10 leaves them.
ghost use Rattle.std.specs.Prelude.{◌≡◌, ◌≤◌, length, replicate};
ghost use Rattle.ledger_block.specs.Block.{over};

// Sets the first `count` places. A loop: `fill` asks for a clone that cannot fail, and `T: Copy` does not promise one.
pub(crate) fn clear<T: Copy>(table: &mut [T], count: usize, blank: T)
    requires { count ≤ length table.old }
    ensures { table.new ≡ over table.old 0 (replicate count blank) }
{
    for i in 0..count {
        table[i] = blank;
    }
}
