//! Operations on the words of two operands, and the laws that let them be combined.
#![tactic(auto)]

ghost use Rattle.std.specs.Prelude.{◌≡◌, Bool, true, false, ℕ, ◌-◌, ◌^◌};
ghost use Rattle.std.specs.Int.Bits.{bit_and, bit_or, bit_xor};
ghost use Rattle.ops.specs.Laws.{Closed, Bitwise, Covering, Exact};
ghost use Rattle.ops.specs.Ops.{or_closed, or_bitwise, or_covering, or_exact, and_bitwise, and_covering, xor_closed, xor_bitwise, xor_covering, sub_bitwise};
ghost use Rattle.std.proofs.Common.{rules};

/// An operation, by what it makes of two mask words and of two data words.
pub trait BitSetOp {
    /// Whether the mask answers announce nothing in vain, over operands whose masks do not.
    const TRUSTED: bool;

    ghost TRUSTED: { Bool };

    ghost masks: { ℕ → ℕ → ℕ };

    ghost words: { ℕ → ℕ → ℕ };

    fn hierarchy_op(left: u64, right: u64) -> u64
        ensures { result ≡ masks left right };

    fn data_op(left: u64, right: u64) -> u64
        ensures { result ≡ words left right };

    /// The constant, by a call.
    final fn is_trusted() -> bool
        ensures { result ≡ TRUSTED }
    {
        Self::TRUSTED
    }

    // answers on words are words
    ghost masksfit: { Closed masks };

    ghost wordsfit: { Closed words };

    // bit k of a data answer depends only on bits k of the two words
    ghost bitwise: { Bitwise words };

    // where the data answer is not 0, the mask answer's bit is 1
    ghost covering: { Covering masks words };

    // of a trusted operation: where the mask answer's bit is 1, the data answer is not 0, nor is the mask answer below
    ghost exact: { Exact TRUSTED masks words };
}

/// What either has.
#[derive(Clone, Copy)]
pub struct Or;

impl BitSetOp for Or {
    const TRUSTED: bool = true;

    ghost TRUSTED = { true };

    ghost masks = { bit_or };

    ghost words = { bit_or };

    ghost masksfit = { or_closed };

    ghost wordsfit = { or_closed };

    ghost bitwise = { or_bitwise };

    ghost covering = { or_covering };

    ghost exact = { or_exact true };

    fn hierarchy_op(left: u64, right: u64) -> u64 {
        left | right // either announces
    }

    fn data_op(left: u64, right: u64) -> u64 {
        left | right // either has
    }
}

/// What both have.
#[derive(Clone, Copy)]
pub struct And;

impl BitSetOp for And {
    const TRUSTED: bool = false; // both may announce a block and share no cell of it

    ghost TRUSTED = { false }; // the same

    ghost masks = { bit_and };

    ghost words = { bit_and };

    ghost masksfit = { Prim.search rules };

    ghost wordsfit = { Prim.search rules };

    ghost bitwise = { and_bitwise };

    ghost covering = { and_covering };

    ghost exact = { Prim.search rules };

    fn hierarchy_op(left: u64, right: u64) -> u64 {
        left & right // both announce
    }

    fn data_op(left: u64, right: u64) -> u64 {
        left & right // both have
    }
}

/// What one has and the other lacks.
#[derive(Clone, Copy)]
pub struct Xor;

impl BitSetOp for Xor {
    const TRUSTED: bool = false;

    ghost TRUSTED = { false };

    ghost masks = { bit_or };

    ghost words = { bit_xor };

    ghost masksfit = { or_closed };

    ghost wordsfit = { xor_closed };

    ghost bitwise = { xor_bitwise };

    ghost covering = { xor_covering };

    ghost exact = { Prim.search rules };

    fn hierarchy_op(left: u64, right: u64) -> u64 {
        left | right // equal words leave an empty block announced
    }

    fn data_op(left: u64, right: u64) -> u64 {
        left ^ right
    }
}

/// What the left has and the right lacks.
#[derive(Clone, Copy)]
pub struct Sub;

impl BitSetOp for Sub {
    const TRUSTED: bool = false;

    ghost TRUSTED = { false };

    ghost masks = { λ a b. a };

    ghost words = { λ a b. bit_and a (2 ^ 64 - 1 - b) };

    ghost masksfit = { Prim.search rules };

    ghost wordsfit = { Prim.search rules };

    ghost bitwise = { sub_bitwise };

    ghost covering = { Prim.search rules };

    ghost exact = { Prim.search rules };

    fn hierarchy_op(left: u64, _right: u64) -> u64 {
        left
    }

    fn data_op(left: u64, right: u64) -> u64 {
        left & !right
    }
}
