//! Versions of an array of numbers, which share nodes.
ghost use Rattle.std.specs.Prelude.{◌≡◌, ◌≤◌, ℕ, List, [], ◌∷◌, ◌++◌, length, Ok, IfOk, OnOk};
ghost use Rattle.hierarchy.specs.private.Versions.{AreNamed, AreVersions, IsAdded, IsSplit, IsVersion, Most, Puts, PutsAll, PutsNested, Takes, nested_at, value_at};

use std::alloc::{AllocError, Global};

/// A node of a version: its value at index 0, and the nodes that have its values at odd indices, and at even ones above
/// 0.
#[derive(Clone, Copy)]
pub struct Node {
    value: usize,
    odd: usize,
    even: usize,
}

/// A value for an index of a version.
#[derive(Clone, Copy)]
pub struct Put {
    pub index: usize,
    pub value: usize,
}

/// The greater of two indices.
pub fn greater(one: usize, other: usize) -> usize
    ensures first { one ≤ result }
    ensures second { other ≤ result }
{
    if one < other { other } else { one }
}

/// Values for the node at the top of a version, and for the two nodes below it.
#[derive(Drop)]
struct Split {
    value: usize,
    odd: Vec<Put>,
    even: Vec<Put>,
}

impl Split {
    /// Takes a value more, which counts in place of one before for the same index.
    fn take(&mut self, put: Put) -> Result<(), AllocError>
        ensures { OnOk result (Takes self.old self.new put) }
    {
        if put.index == 0 {
            self.value = put.value;
            return Ok(());
        }
        let below = Put {
            index: (put.index - 1) / 2,
            value: put.value,
        };
        if put.index % 2 == 1 {
            self.odd.push(below)?;
        } else {
            self.even.push(below)?;
        }
        Ok(())
    }
}

/// The values for a version, by the nodes that they are for, where the one at the top has a value.
fn split_by_node(alloc: Global, value: usize, puts: &[Put]) -> Result<Split, AllocError>
    ensures { IfOk result (IsSplit value puts.now) }
{
    let mut split = Split {
        value,
        odd: Vec::new(alloc),
        even: Vec::new(alloc),
    };
    for put in puts {
        split.take(*put)?;
    }
    Ok(split)
}

/// Versions of an array of numbers, each named by its node at the top. Version 0 has zeros alone, and each other one
/// was made of one before by a value at one index: the nodes on the way to that index are new, and all others are
/// shared. Index 2i + 1 of a version is index i of its node `odd`, and index 2i + 2 is index i of its node `even`.
#[derive(Drop)]
pub struct Versions {
    nodes: Vec<Node>,
}

impl Versions {
    /// Version 0 alone, which has zeros at all indices.
    pub fn new(alloc: Global) -> Result<Versions, AllocError>
        ensures { IfOk result (λ v. AreVersions v × IsVersion v 0 × ((i : ℕ) → value_at v 0 i ≡ 0)) }
    {
        let mut nodes = Vec::new(alloc);
        nodes.push(Node {
            value: 0,
            odd: 0,
            even: 0,
        })?;
        Ok(Versions { nodes })
    }

    /// The value of a version at an index. Looks at one node more than the index has binary digits, at most.
    pub fn get(&self, version: usize, index: usize) -> usize
        requires good { AreVersions self.now }
        requires there { IsVersion self.now version }
        ensures { result ≡ value_at self.now version index }
    {
        let mut at = version;
        let mut left = index;
        while left > 0 {
            let node = self.nodes[at];
            at = if left % 2 == 1 { node.odd } else { node.even };
            left = (left - 1) / 2;
        }
        self.nodes[at].value
    }

    // A new version, which has this node at the top.
    fn push(&mut self, node: Node) -> Result<usize, AllocError>
        ensures { IfOk result (λ made. (made ≡ length self.old.nodes.items)
            × (self.new.nodes.items ≡ self.old.nodes.items ++ node ∷ [])) }
    {
        let made = self.nodes.len();
        self.nodes.push(node)?;
        Ok(made)
    }

    // A new version that has this value at the index, and otherwise what another has. Copies the nodes on the way to
    // the index.
    fn put_new(&mut self, version: usize, index: usize, value: usize) -> Result<usize, AllocError>
        requires good { AreVersions self.old }
        requires there { IsVersion self.old version }
        ensures { IfOk result (Puts self.old self.new version index value) }
    {
        let node = self.nodes[version];
        if index == 0 {
            return self.push(Node { value, ..node });
        }
        let left = (index - 1) / 2;
        if index % 2 == 1 {
            let odd = self.put_new(node.odd, left, value)?;
            return self.push(Node { odd, ..node });
        }
        let even = self.put_new(node.even, left, value)?;
        self.push(Node { even, ..node })
    }

    /// The version that has this value at an index, and otherwise what another version has. Takes no memory where that
    /// one has the value.
    pub fn put(&mut self, version: usize, index: usize, value: usize) -> Result<usize, AllocError>
        requires good { AreVersions self.old }
        requires there { IsVersion self.old version }
        ensures puts { IfOk result (Puts self.old self.new version index value) }
        ensures spared { value_at self.old version index ≡ value → (result ≡ Ok version) × (self.new ≡ self.old) }
    {
        if self.get(version, index) == value {
            return Ok(version);
        }
        self.put_new(version, index, value)
    }

    // The version that has this node at the top: the one that is there, or a new one.
    fn at_top(&mut self, version: usize, node: Node) -> Result<usize, AllocError>
        requires good { AreVersions self.old }
        requires there { IsVersion self.old version }
        requires odd { IsVersion self.old node.odd }
        requires even { IsVersion self.old node.even }
        ensures { IfOk result (IsAdded self.old self.new node) }
    {
        let is = self.nodes[version];
        if is.value == node.value && is.odd == node.odd && is.even == node.even {
            return Ok(version);
        }
        self.push(node)
    }

    /// The version that has each of these values at its index, and otherwise what another version has. Of several values
    /// for one index the last counts. No index is above `most`. Each node on the way to one of these indices is copied
    /// once, however many of them it leads to.
    pub fn put_all(
        &mut self,
        version: usize,
        puts: &[Put],
        most: usize,
    ) -> Result<usize, AllocError>
        requires good { AreVersions self.old }
        requires there { IsVersion self.old version }
        requires most { Most most puts.now }
        ensures { IfOk result (PutsAll self.old self.new version puts.now) }
    {
        if puts.is_empty() {
            return Ok(version);
        }
        let node = self.nodes[version];
        let split = split_by_node(*self.nodes.allocator(), node.value, puts)?;
        if most == 0 {
            let value = split.value;
            return self.at_top(version, Node { value, ..node });
        }
        let below = (most - 1) / 2;
        let odd = self.put_all(node.odd, &split.odd, below)?;
        let even = self.put_all(node.even, &split.even, below)?;
        let value = split.value;
        self.at_top(version, Node { value, odd, even })
    }

    /// The value at an index of the version that another one names at an index.
    pub fn get_nested(&self, version: usize, outer: usize, index: usize) -> usize
        requires good { AreVersions self.now }
        requires there { IsVersion self.now version }
        requires named { AreNamed self.now version }
        ensures { result ≡ nested_at self.now version outer index }
    {
        self.get(self.get(version, outer), index)
    }

    /// The version that names at an index one which has these values too, and otherwise what another version names.
    pub fn put_nested(
        &mut self,
        version: usize,
        outer: usize,
        puts: &[Put],
        most: usize,
    ) -> Result<usize, AllocError>
        requires good { AreVersions self.old }
        requires there { IsVersion self.old version }
        requires named { AreNamed self.old version }
        requires most { Most most puts.now }
        ensures { IfOk result (PutsNested self.old self.new version outer puts.now) }
    {
        let had = self.get(version, outer);
        let has = self.put_all(had, puts, most)?;
        self.put(version, outer, has)
    }
}
