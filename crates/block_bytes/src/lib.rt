// Forward and backward on blocks whose cells are bytes, for hosts in C, each with one plain number for an answer (document 01, Parts of the engine).
#![tactic(auto)]

ghost use Rattle.block_bytes.specs.Inner.{BackwardAnswered, ForwardAnswered};

// Forward on the cells that the bytes spell.
pub fn forward(bytes: &mut [u8]) -> u64
    ensures { ForwardAnswered bytes.old bytes.new result }
{
    lent_cells::in_place(bytes, hartley::forward)
}

// Backward on the cells that the bytes spell.
pub fn backward(bytes: &mut [u8]) -> u64
    ensures { BackwardAnswered bytes.old bytes.new result }
{
    lent_cells::in_place(bytes, hartley::backward)
}
