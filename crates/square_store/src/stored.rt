//! Squares as a store has them in memory.

ghost use Rattle.std.specs.Prelude.{◌≡◌, ◌+◌, ◌*◌, ◌^◌, IfSome, None, Some};
ghost use Rattle.square_store.specs.Squares.{HasLevel};
ghost use Rattle.square_store.specs.Stored.{first_of, node_hash, node_of};

use crate::first_result::FirstResult;
use crate::node::Node;
use crate::part::Part;
use keyed_hash::HashKey;

/// A square in 24 bytes, with the result that was first kept of it.
#[derive(Clone, Copy)]
pub(crate) enum StoredSquare {
    Blank(u64),
    Leaf(u32),
    /// Of a level below 256. Where there is an exponent, `later` is the result.
    Four {
        level: u8,
        exponent: Option<u8>,
        nw: Part,
        ne: Part,
        sw: Part,
        se: Part,
        later: Part,
    },
    /// Of a level from 256 on; no result is kept of it.
    High {
        level: u32,
        nw: Part,
        ne: Part,
        sw: Part,
        se: Part,
    },
}

impl StoredSquare {
    /// The square of a node, without a result.
    pub(crate) fn of(node: Node) -> StoredSquare
        ensures node { node_of result ≡ node }
        ensures first { first_of result ≡ None }
    {
        match node {
            Node::Blank(stamp) => StoredSquare::Blank(stamp),
            Node::Leaf(at) => StoredSquare::Leaf(at),
            Node::Four {
                level,
                nw,
                ne,
                sw,
                se,
            } => {
                if level < 256 {
                    StoredSquare::Four {
                        level: level as u8,
                        exponent: None,
                        nw,
                        ne,
                        sw,
                        se,
                        later: nw,
                    }
                } else {
                    StoredSquare::High {
                        level,
                        nw,
                        ne,
                        sw,
                        se,
                    }
                }
            }
        }
    }

    #[inline(always)]
    pub(crate) fn node(&self) -> Node
        ensures { result ≡ node_of self.now }
    {
        match *self {
            StoredSquare::Blank(stamp) => Node::Blank(stamp),
            StoredSquare::Leaf(at) => Node::Leaf(at),
            StoredSquare::Four {
                level,
                nw,
                ne,
                sw,
                se,
                ..
            } => Node::Four {
                level: u32::from(level),
                nw,
                ne,
                sw,
                se,
            },
            StoredSquare::High {
                level,
                nw,
                ne,
                sw,
                se,
            } => Node::Four {
                level,
                nw,
                ne,
                sw,
                se,
            },
        }
    }

    #[inline(always)]
    pub(crate) fn first(&self) -> Option<FirstResult>
        ensures { result ≡ first_of self.now }
    {
        match *self {
            StoredSquare::Four {
                level,
                exponent: Some(exponent),
                later,
                ..
            } => Some(FirstResult {
                level: u32::from(level),
                exponent: u32::from(exponent),
                later,
            }),
            _ => None,
        }
    }

    /// The same square with a result, where it has room for one and has none.
    pub(crate) fn keeping(&self, first: FirstResult) -> Option<StoredSquare>
        requires { HasLevel first.level (Some (node_of self.now)) }
        ensures { IfSome result (λ square. (node_of square ≡ node_of self.now) × (first_of square ≡ Some first)) }
    {
        match *self {
            StoredSquare::Four {
                level,
                exponent: None,
                nw,
                ne,
                sw,
                se,
                ..
            } => {
                if first.exponent >= 256 {
                    return None;
                }
                Some(StoredSquare::Four {
                    level,
                    exponent: Some(first.exponent as u8),
                    nw,
                    ne,
                    sw,
                    se,
                    later: first.later,
                })
            }
            _ => None,
        }
    }
}

/// The hash of a node: of its parts in twos, in the row of its level.
#[inline(always)]
pub(crate) fn hash_of(key: &HashKey, node: &Node) -> u32
    ensures { result ≡ node_hash key.now node.now }
{
    match *node {
        Node::Blank(stamp) => key.hash_of_two(0, stamp, 0),
        Node::Leaf(at) => key.hash_of_two(0, u64::from(at), 1),
        Node::Four {
            level,
            nw,
            ne,
            sw,
            se,
        } => key.hash_of_two(level, two(nw, ne), two(sw, se)),
    }
}

/// Two places as one number.
#[inline(always)]
fn two(first: Part, second: Part) -> u64
    ensures { result ≡ first + second * 2 ^ 32 }
{
    u64::from(first.place) + (u64::from(second.place) << 32)
}
