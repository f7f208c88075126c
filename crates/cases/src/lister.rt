ghost use Rattle.std.specs.Prelude.{◌≡◌, ℕ, ◌+◌, ◌^◌, ◌<◌, ◌≤◌, length, IfOk, OnOk};
ghost use Rattle.rules.specs.RuleRows.{rule_rows};
ghost use Rattle.cases.specs.Sizes.{size, EachHas};

use crate::tree::{Entry, Reading, Tree};
use rules::Rule;
use std::alloc::{AllocError, Global};

// A part of a name: where it begins, and its symbols.
#[derive(Clone, Copy)]
struct Part<'a> {
    start: usize,
    symbols: &'a [u8],
    ghost ends: { start + length symbols.now < 2 ^ 64 },
}

impl<'a> Part<'a> {
    fn stretch(&self) -> (usize, usize) {
        (self.start, self.start + self.symbols.len())
    }

    // The part up to so many symbols, and the part from there on.
    fn split(&self, at: usize) -> (Part<'a>, Part<'a>)
        requires { at ≤ length self.now.symbols.now }
    {
        let (first, second) = self.symbols.split_at(at);
        let rest = Part {
            start: self.start + at,
            symbols: second,
        };
        (
            Part {
                start: self.start,
                symbols: first,
            },
            rest,
        )
    }
}

// The readings found of a node and its stretch.
#[derive(Drop)]
struct Found {
    own: (usize, usize),
    all: Vec<Reading>,
}

impl Found {
    fn new(heap: Global, part: Part) -> Found
        ensures { (n : ℕ) → EachHas n result.all.items }
    {
        Found {
            own: part.stretch(),
            all: Vec::new(heap),
        }
    }

    // One reading, from the node's own entry and the entries of its parts.
    fn add(&mut self, left: &[Entry], right: &[Entry]) -> Result<(), AllocError>
        ensures { (n : ℕ) → n ≡ 1 + length left.now + length right.now → EachHas n self.old.all.items → OnOk result (EachHas n self.new.all.items) }
    {
        let heap = *self.all.allocator();
        let mut reading = Vec::with_capacity(heap, 1 + left.len() + right.len())?;
        reading.push(Some(self.own))?;
        reading.extend_from_slice(left)?;
        reading.extend_from_slice(right)?;
        self.all.push(reading)?;
        Ok(())
    }

    // One reading for each reading of the second part.
    fn add_each(&mut self, left: &[Entry], rights: &[Reading]) -> Result<(), AllocError>
        ensures { (m n : ℕ) → n ≡ 1 + length left.now + m → EachHas m rights.now → EachHas n self.old.all.items → OnOk result (EachHas n self.new.all.items) }
    {
        for right in rights {
            self.add(left, right)?;
        }
        Ok(())
    }

    // One reading for each pair of readings of the two parts.
    fn add_all(&mut self, lefts: &[Reading], rights: &[Reading]) -> Result<(), AllocError>
        ensures { (k m n : ℕ) → n ≡ 1 + k + m → EachHas k lefts.now → EachHas m rights.now → EachHas n self.old.all.items → OnOk result (EachHas n self.new.all.items) }
    {
        for left in lefts {
            self.add_each(left, rights)?;
        }
        Ok(())
    }
}

// An empty, a leaf or a star: one reading, where the tree has the part, with nothing below the node.
fn list_alone(heap: Global, tree: &Tree, part: Part) -> Result<Vec<Reading>, AllocError>
    ensures { IfOk result (λ v. EachHas (size tree.now) v.items) }
{
    let mut all = Vec::new(heap);
    if !tree.has(part.symbols) {
        return Ok(all);
    }
    let mut reading = tree.nothing(heap)?;
    reading[0] = Some(part.stretch());
    all.push(reading)?;
    Ok(all)
}

// Each way to split the part in two. A split is a number, so the loop counts it.
#[cycle(listing)]
fn list_sequence(
    heap: Global,
    first: &Tree,
    second: &Tree,
    part: Part,
) -> Result<Vec<Reading>, AllocError>
    ensures { IfOk result (λ v. EachHas (1 + size first.now + size second.now) v.items) }
{
    let mut found = Found::new(heap, part);
    for at in 0..=part.symbols.len() {
        let (left, right) = part.split(at);
        found.add_all(&list(heap, first, left)?, &list(heap, second, right)?)?;
    }
    Ok(found.all)
}

// Every reading of the part by the tree.
#[cycle(listing)]
fn list(heap: Global, tree: &Tree, part: Part) -> Result<Vec<Reading>, AllocError>
    ensures { IfOk result (λ v. EachHas (size tree.now) v.items) }
{
    match tree {
        Tree::Empty | Tree::Leaf { .. } | Tree::Star(_) => list_alone(heap, tree, part),
        Tree::Choice(p, q) => {
            let mut found = Found::new(heap, part);
            found.add_all(&list(heap, p, part)?, &[q.nothing(heap)?])?;
            found.add_all(&[p.nothing(heap)?], &list(heap, q, part)?)?;
            Ok(found.all)
        }
        Tree::Sequence(p, q) => list_sequence(heap, p, q, part),
    }
}

impl Tree {
    // Every reading of the name by the tree: each has an entry for each node.
    pub fn readings(&self, heap: Global, name: &[u8]) -> Result<Vec<Reading>, AllocError>
        ensures { IfOk result (λ v. EachHas (size self.now) v.items) }
    {
        let whole = Part {
            start: 0,
            symbols: name,
        };
        list(heap, self, whole)
    }
}

// Every reading of the name by the rule: each has an entry for each of the rule's rows.
pub fn readings(heap: Global, rule: &Rule, name: &[u8]) -> Result<Vec<Reading>, AllocError>
    ensures { IfOk result (λ v. EachHas (length (rule_rows rule.now)) v.items) }
{
    match Tree::of(heap, rule.rows())? {
        Some(tree) => tree.readings(heap, name),
        None => Ok(Vec::new(heap)),
    }
}
