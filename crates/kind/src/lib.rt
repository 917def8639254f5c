// The block's kind with its named constants, and the two counts that must not be mixed up: moments and lines.
#![tactic(auto)]

ghost use Rattle.std.specs.Prelude.{◌≡◌};
ghost use Rattle.kind.specs.BlockKinds.{kind_numbers, kind_of, length_numbers};

// A moment of a block, counted from 0 (document 01's t, the source's tau).
#[derive(Clone, Copy, Debug, PartialEq, Eq)]
pub struct Moment(pub usize);

// A line of a spectrum, counted from 0 (document 01's v, the source's nu).
#[derive(Clone, Copy, Debug, PartialEq, Eq)]
pub struct Line(pub usize);

// A block's kind: a block has 2^p cells (document 01's P). `of_len` gives p from 1 to 10; a call that is handed a kind tests it.
#[derive(Clone, Copy, Debug, PartialEq, Eq)]
pub struct BlockKind {
    pub p: usize,
}

impl BlockKind {
    // The largest P.
    pub const LARGEST_P: usize = 10;
    // The largest length of a block, in cells.
    pub const LARGEST: usize = 1 << BlockKind::LARGEST_P;
    // The steps of a turn.
    pub const TURN: usize = 1024;
    // The binary digits of the table's scale.
    pub const SCALE_DIGITS: usize = 15;
    // The scale of the quarter table.
    pub const SCALE: usize = 1 << BlockKind::SCALE_DIGITS;

    // The kind of a block of len cells, or none where no block has this length.
    pub fn of_len(len: usize) -> Option<BlockKind>
        ensures answer { result ≡ kind_of len }
        ensures numbers { kind_numbers result ≡ length_numbers len }
    {
        for p in 1..=BlockKind::LARGEST_P {
            if len == 1 << p {
                return Some(BlockKind { p });
            }
        }
        None
    }
}
