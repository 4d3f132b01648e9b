ghost use Rattle.std.specs.Prelude.{◌≡◌, ℕ, ◌+◌, ◌≤◌, List, true, length, refl};
ghost use Rattle.checksum.specs.Kinds.{kind_byte};
ghost use Rattle.checksum.specs.declared.kind.Kind.{Kind};
ghost use Rattle.checksum.specs.declared.kind.Kind.TheVariants.{Leaf, Branch};
ghost use Rattle.cuts.specs.Nodes.{Pair, pair_cost, cell_cost};
ghost use Rattle.page.specs.Goods.{leaf_costs, leaf_small, branch_costs, branch_small};
ghost use Rattle.page.specs.Kinds.{Rules, BranchItem, is_key_length, leaf_rules, branch_rules, pair_of, cell_of};

use checksum::Kind;

// A kind of cells. Cells are the bytes that they have in a page; `rules` says what a kind means.
pub trait Cell {
    // what a page of such cells is
    const KIND: Kind;

    ghost KIND: { Kind };

    // the bytes of a cell before its key
    const HEAD: usize;

    ghost rules: { Rules };

    // What a cell says, and the bytes of a page that this costs.
    ghost Item: { Type 0 };

    ghost item: { List ℕ → Item };

    ghost item_cost: { Item → ℕ };

    // Whether the bytes are a cell, lengths included.
    fn is_good(body: &[u8]) -> bool
        ensures { result ≡ rules.good body.now };

    // The key or separator of a cell; of other bytes, what stands where one would have it.
    fn key_of(body: &[u8]) -> &[u8]
        ensures { result.now ≡ rules.key body.now };

    // Whether a page may have this leftmost child.
    fn allows_leftmost(child: u32) -> bool
        ensures { result ≡ rules.leftmost child };

    // Its byte is the kind's.
    ghost kinds: { rules.kind ≡ kind_byte KIND };

    ghost costs: { (b : List ℕ) → rules.good b ≡ true → item_cost (item b) ≡ 2 + length b };

    ghost small: { (b : List ℕ) → rules.good b ≡ true → 2 + length b ≤ 196 };
}

// Whether a key or a separator may have so many bytes.
pub(crate) fn is_key_len(len: usize) -> bool
    ensures { result ≡ is_key_length len }
{
    (1..=64).contains(&len)
}

// The first byte of a page of such cells.
pub(crate) fn kind_byte<C: Cell>() -> u8
    ensures { result ≡ C.rules.kind }
{
    C::KIND.into()
}

pub struct LeafCell;

pub struct BranchCell;

// key length, value length, key, value
impl Cell for LeafCell {
    const KIND: Kind = Kind::Leaf;

    ghost KIND = { Leaf };

    const HEAD: usize = 2;

    ghost rules = { leaf_rules };

    ghost Item = { Pair };

    ghost item = { pair_of };

    ghost item_cost = { pair_cost };

    ghost kinds = { refl };

    ghost costs = { leaf_costs };

    ghost small = { leaf_small };

    fn is_good(body: &[u8]) -> bool {
        body.len() >= Self::HEAD
            && is_key_len(usize::from(body[0]))
            && body[1] <= 128
            && body.len() == Self::HEAD + usize::from(body[0]) + usize::from(body[1])
    }

    fn key_of(body: &[u8]) -> &[u8] {
        let Some((head, rest)) = body.split_at_checked(Self::HEAD) else {
            return &[];
        };
        rest.get(..usize::from(head[0])).unwrap_or(rest)
    }

    fn allows_leftmost(child: u32) -> bool {
        child == 0
    }
}

// separator length, zero, child, separator
impl Cell for BranchCell {
    const KIND: Kind = Kind::Branch;

    ghost KIND = { Branch };

    const HEAD: usize = 6;

    ghost rules = { branch_rules };

    ghost Item = { BranchItem };

    ghost item = { cell_of };

    ghost item_cost = { cell_cost };

    ghost kinds = { refl };

    ghost costs = { branch_costs };

    ghost small = { branch_small };

    fn is_good(body: &[u8]) -> bool {
        body.len() >= Self::HEAD
            && is_key_len(usize::from(body[0]))
            && body[1] == 0
            && body.len() == Self::HEAD + usize::from(body[0])
    }

    fn key_of(body: &[u8]) -> &[u8] {
        body.get(Self::HEAD..).unwrap_or(&[])
    }

    fn allows_leftmost(_child: u32) -> bool {
        true
    }
}
