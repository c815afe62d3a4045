// A search tree of moments under IDs, balanced by height. Each tree knows its least moment. A change takes
// forks apart and puts them together again, and takes no memory: the forks that aren't in use lie in a stock.

ghost use Rattle.std.specs.Prelude.{◌≡◌, ◌+◌, ◌<◌, ◌≤◌, ◌⊎◌, [], ◌∷◌, ◌++◌, length, vec_len, vec_capacity, None, IfSome, IfNone};
ghost use Rattle.udt_queues.specs.Listings.{IsLeast, IsLesser, IsRising, place, without, moment_of};

use std::cmp::Ordering;
use std::marker::Model;
use std::mem;

/// A moment under an ID.
#[derive(Clone, Copy)]
pub struct Listing {
    pub at: u64,
    pub id: u32,
}

/// A tree of listings. Contracts see them in rising order of their IDs.
#[cycle(tree)]
#[derive(Drop)]
pub struct Tree {
    link: Link,
}

#[cycle(tree)]
#[derive(Drop)]
enum Link {
    Tip,
    Joint(Box<Fork>),
}

/// A listing with the trees of those below it and above it, the least of all, and the height.
#[cycle(tree)]
#[derive(Drop)]
pub struct Fork {
    left: Tree,
    listing: Listing,
    right: Tree,
    least: Listing,
    height: u32,
}

impl Model for Tree {
    ghost use Rattle.std.specs.Prelude.{List, length};
    ghost use Rattle.udt_queues.specs.declared.tree.Listing.{Listing};

    ghost Value = { List Listing };

    ghost use Rattle.udt_queues.specs.Trees.{listings_of, IsSound};

    ghost view = { λ t. listings_of t.link };

    ghost invariant = { λ t. IsSound t.link };

    ghost size = { length };

    ghost use Rattle.udt_queues.specs.TreeFalls.{depth_within};

    ghost size_decreases = { λ t h. depth_within t.link };
}

impl Fork {
    /// A fork that isn't in use.
    pub(crate) fn unused() -> Fork {
        let none = Listing { at: 0, id: 0 };
        Fork {
            left: Tree::tip(),
            listing: none,
            right: Tree::tip(),
            least: none,
            height: 0,
        }
    }
}

/// A tree that was taken apart at its top, and the fork of which its parts were taken.
#[derive(Drop)]
struct Parts {
    left: Tree,
    listing: Listing,
    right: Tree,
    fork: Box<Fork>,
}

/// The one of two that comes first: the lesser moment, or the lesser ID at one moment.
fn lesser(a: Listing, b: Listing) -> Listing
    ensures { IsLesser result a b }
{
    if b.at < a.at || (b.at == a.at && b.id < a.id) {
        b
    } else {
        a
    }
}

impl Tree {
    /// A tree of nothing.
    pub(crate) fn tip() -> Tree
        ensures { result ≡ [] }
    {
        Tree { link: Link::Tip }
    }

    /// The least listing.
    pub(crate) fn least(&self) -> Option<Listing>
        ensures some { IfSome result (λ m. IsLeast m self.now) }
        ensures none { IfNone result (self.now ≡ []) }
    {
        match &self.link {
            Link::Tip => None,
            Link::Joint(fork) => Some(fork.least),
        }
    }

    fn height(&self) -> u32 {
        match &self.link {
            Link::Tip => 0,
            Link::Joint(fork) => fork.height,
        }
    }

    // Takes the tree apart at its top.
    fn open(self) -> Option<Parts>
        ensures some { IfSome result (λ p. self ≡ p.left ++ p.listing ∷ p.right) }
        ensures none { IfNone result (self ≡ []) }
    {
        match self.link {
            Link::Tip => None,
            Link::Joint(mut fork) => {
                let left = mem::replace(&mut fork.left, Tree::tip());
                let right = mem::replace(&mut fork.right, Tree::tip());
                let listing = fork.listing;
                Some(Parts {
                    left,
                    listing,
                    right,
                    fork,
                })
            }
        }
    }
}

// The least of a listing and of what stands in a tree.
fn least_with(listing: Listing, tree: &Tree) -> Listing
    ensures { IsLeast result (listing ∷ tree.now) }
{
    match tree.least() {
        None => listing,
        Some(other) => lesser(listing, other),
    }
}

// The least of a listing and of what stands in two trees.
fn least_of_three(left: &Tree, listing: Listing, right: &Tree) -> Listing
    ensures { IsLeast result (left.now ++ listing ∷ right.now) }
{
    let first = least_with(listing, left);
    least_with(first, right)
}

// A tree of these parts, in this fork.
fn build(mut fork: Box<Fork>, left: Tree, listing: Listing, right: Tree) -> Tree
    ensures { result ≡ left ++ listing ∷ right }
{
    let least = least_of_three(&left, listing, &right);
    let height = left.height().max(right.height()).saturating_add(1);
    *fork = Fork {
        left,
        listing,
        right,
        least,
        height,
    };
    Tree {
        link: Link::Joint(fork),
    }
}

// The same tree as `build` gives, turned to the right where its left side is too high.
fn lean_left(fork: Box<Fork>, left: Tree, listing: Listing, right: Tree) -> Tree
    ensures { result ≡ left ++ listing ∷ right }
{
    let Some(parts) = left.open() else {
        return build(fork, Tree::tip(), listing, right);
    };
    let Parts {
        left: outer,
        listing: top,
        right: inner,
        fork: second,
    } = parts;
    if outer.height() >= inner.height() {
        let low = build(fork, inner, listing, right);
        return build(second, outer, top, low);
    }
    let Some(parts) = inner.open() else {
        let low = build(fork, Tree::tip(), listing, right);
        return build(second, outer, top, low);
    };
    let low = build(second, outer, top, parts.left);
    let high = build(fork, parts.right, listing, right);
    build(parts.fork, low, parts.listing, high)
}

// The same tree, turned to the left where its right side is too high.
fn lean_right(fork: Box<Fork>, left: Tree, listing: Listing, right: Tree) -> Tree
    ensures { result ≡ left ++ listing ∷ right }
{
    let Some(parts) = right.open() else {
        return build(fork, left, listing, Tree::tip());
    };
    let Parts {
        left: inner,
        listing: top,
        right: outer,
        fork: second,
    } = parts;
    if outer.height() >= inner.height() {
        let low = build(fork, left, listing, inner);
        return build(second, low, top, outer);
    }
    let Some(parts) = inner.open() else {
        let low = build(fork, left, listing, Tree::tip());
        return build(second, low, top, outer);
    };
    let low = build(fork, left, listing, parts.left);
    let high = build(second, parts.right, top, outer);
    build(parts.fork, low, parts.listing, high)
}

// The same tree, with its sides at most one apart in height where they were at most two apart.
fn balance(fork: Box<Fork>, left: Tree, listing: Listing, right: Tree) -> Tree
    ensures { result ≡ left ++ listing ∷ right }
{
    let (low, high) = (left.height(), right.height());
    if low > high.saturating_add(1) {
        lean_left(fork, left, listing, right)
    } else if high > low.saturating_add(1) {
        lean_right(fork, left, listing, right)
    } else {
        build(fork, left, listing, right)
    }
}

/// The tree with a listing, in place of the one with its ID, if there is one. A new listing takes a fork of
/// the stock.
pub(crate) fn insert(tree: Tree, fresh: Listing, stock: &mut Vec<Box<Fork>>) -> Tree
    requires rising { IsRising tree }
    requires stock { moment_of fresh.id tree ≡ None → 0 < vec_len stock.old }
    ensures next { result ≡ place fresh tree }
    ensures stock { vec_len stock.new + length result ≡ vec_len stock.old + length tree }
    ensures capacity { vec_capacity stock.new ≡ vec_capacity stock.old }
{
    let Some(parts) = tree.open() else {
        let Some(fork) = stock.pop() else {
            unreachable!()
        };
        return build(fork, Tree::tip(), fresh, Tree::tip());
    };
    let Parts {
        left,
        listing,
        right,
        fork,
    } = parts;
    match fresh.id.cmp(&listing.id) {
        Ordering::Less => balance(fork, insert(left, fresh, stock), listing, right),
        Ordering::Greater => balance(fork, left, listing, insert(right, fresh, stock)),
        Ordering::Equal => build(fork, left, fresh, right),
    }
}

// What is left of a tree after its first listing was taken out, and the fork that it had.
#[derive(Drop)]
struct Rest {
    listing: Listing,
    tree: Tree,
    fork: Box<Fork>,
}

// Takes out the first listing.
fn take_first(tree: Tree) -> Option<Rest>
    ensures some { IfSome result (λ r. tree ≡ r.listing ∷ r.tree) }
    ensures none { IfNone result (tree ≡ []) }
{
    let Some(parts) = tree.open() else {
        return None;
    };
    let Parts {
        left,
        listing,
        right,
        fork,
    } = parts;
    match take_first(left) {
        None => Some(Rest {
            listing,
            tree: right,
            fork,
        }),
        Some(first) => Some(Rest {
            listing: first.listing,
            tree: balance(fork, first.tree, listing, right),
            fork: first.fork,
        }),
    }
}

// The listings of two trees in one, of which the second's follow the first's. One fork goes to the stock.
fn append(left: Tree, right: Tree, fork: Box<Fork>, stock: &mut Vec<Box<Fork>>) -> Tree
    requires { vec_len stock.old < vec_capacity stock.old }
    ensures next { result ≡ left ++ right }
    ensures stock { vec_len stock.new ≡ vec_len stock.old + 1 }
    ensures capacity { vec_capacity stock.new ≡ vec_capacity stock.old }
{
    match take_first(right) {
        None => {
            stock.push_reserved(fork);
            left
        }
        Some(first) => {
            stock.push_reserved(first.fork);
            balance(fork, left, first.listing, first.tree)
        }
    }
}

/// The tree with no listing of this ID. A listing that goes leaves its fork to the stock.
pub(crate) fn remove(tree: Tree, id: u32, stock: &mut Vec<Box<Fork>>) -> Tree
    requires rising { IsRising tree }
    requires room { vec_len stock.old + length tree ≤ vec_capacity stock.old }
    ensures next { result ≡ without id tree }
    ensures stock { vec_len stock.new + length result ≡ vec_len stock.old + length tree }
    ensures capacity { vec_capacity stock.new ≡ vec_capacity stock.old }
{
    let Some(parts) = tree.open() else {
        return Tree::tip();
    };
    let Parts {
        left,
        listing,
        right,
        fork,
    } = parts;
    match id.cmp(&listing.id) {
        Ordering::Less => balance(fork, remove(left, id, stock), listing, right),
        Ordering::Greater => balance(fork, left, listing, remove(right, id, stock)),
        Ordering::Equal => append(left, right, fork, stock),
    }
}
