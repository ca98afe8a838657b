ghost use Rattle.std.specs.Prelude.{◌≡◌, ◌+◌, ◌<◌, ◌≤◌, ℕ, Some, None, IfOk, length, set};
ghost use Rattle.link_arena.specs.Rings.{kept_at, home_at, first_home};

use std::alloc::Global;
use thread_base::NoMemory;

/// The places of the nodes and, after them, an end for each head. An end and the nodes of its head make a ring.
#[derive(Drop)]
pub struct Rings {
    pub next: Vec<u32>,
    pub previous: Vec<u32>,
    pub homes: Vec<Option<u32>>,
}

impl Rings {
    /// Rings of the ends alone.
    pub fn new(alloc: Global, nodes: u32, heads: u32) -> Result<Rings, NoMemory>
        requires { (nodes ≤ 4096) × (heads ≤ 4096) }
        ensures counts { IfOk result (λ rings. (length rings.next.items ≡ nodes + heads) × (length rings.previous.items ≡ nodes + heads) × (length rings.homes.items ≡ nodes + heads)) }
        ensures next { IfOk result (λ rings. (x : ℕ) → x < nodes + heads → kept_at rings.next.items x ≡ x) }
        ensures previous { IfOk result (λ rings. (x : ℕ) → x < nodes + heads → kept_at rings.previous.items x ≡ x) }
        ensures homes { IfOk result (λ rings. (x : ℕ) → x < nodes + heads → home_at rings.homes.items x ≡ first_home nodes x) }
    {
        Ok(Rings {
            next: own_places(alloc, nodes + heads)?,
            previous: own_places(alloc, nodes + heads)?,
            homes: ends_alone(alloc, nodes, heads)?,
        })
    }

    /// The place after another.
    pub fn next(&self, place: u32) -> u32
        requires { place < length self.now.next.items }
        ensures { result ≡ kept_at self.now.next.items place }
    {
        self.next[place as usize]
    }

    /// The head in whose ring a place stands.
    pub fn home(&self, place: u32) -> Option<u32>
        requires { place < length self.now.homes.items }
        ensures { result ≡ home_at self.now.homes.items place }
    {
        self.homes[place as usize]
    }

    /// Puts a place right before another, in its ring.
    pub fn link(&mut self, node: u32, at: u32)
        requires range { (node < length self.old.next.items) × (at < length self.old.next.items) × (kept_at self.old.previous.items at < length self.old.next.items) }
        requires same { (length self.old.previous.items ≡ length self.old.next.items) × (length self.old.homes.items ≡ length self.old.next.items) }
        ensures next { self.new.next.items ≡ set (set self.old.next.items (kept_at self.old.previous.items at) node) node at }
        ensures previous { self.new.previous.items ≡ set (set self.old.previous.items at node) node (kept_at self.old.previous.items at) }
        ensures homes { self.new.homes.items ≡ set self.old.homes.items node (home_at self.old.homes.items at) }
    {
        let before = self.previous[at as usize];
        self.next[before as usize] = node;
        self.next[node as usize] = at;
        self.previous[at as usize] = node;
        self.previous[node as usize] = before;
        self.homes[node as usize] = self.homes[at as usize];
    }

    /// Takes a place out of its ring.
    pub fn unlink(&mut self, node: u32)
        requires range { (node < length self.old.next.items) × (kept_at self.old.next.items node < length self.old.next.items) × (kept_at self.old.previous.items node < length self.old.next.items) }
        requires same { (length self.old.previous.items ≡ length self.old.next.items) × (length self.old.homes.items ≡ length self.old.next.items) }
        ensures next { self.new.next.items ≡ set self.old.next.items (kept_at self.old.previous.items node) (kept_at self.old.next.items node) }
        ensures previous { self.new.previous.items ≡ set self.old.previous.items (kept_at self.old.next.items node) (kept_at self.old.previous.items node) }
        ensures homes { self.new.homes.items ≡ set self.old.homes.items node None }
    {
        let before = self.previous[node as usize];
        let after = self.next[node as usize];
        self.next[before as usize] = after;
        self.previous[after as usize] = before;
        self.homes[node as usize] = None;
    }
}

/// Each of so many numbers at its own place.
fn own_places(alloc: Global, count: u32) -> Result<Vec<u32>, NoMemory>
    ensures count { IfOk result (λ places. length places.items ≡ count) }
    ensures own { IfOk result (λ places. (x : ℕ) → x < count → kept_at places.items x ≡ x) }
{
    let Ok(mut places) = Vec::with_capacity(alloc, count as usize) else {
        return Err(NoMemory);
    };
    for place in 0..count {
        if places.push(place).is_err() {
            return Err(NoMemory);
        }
    }
    Ok(places)
}

/// The heads of all places while each list is empty.
fn ends_alone(alloc: Global, nodes: u32, heads: u32) -> Result<Vec<Option<u32>>, NoMemory>
    requires { (nodes ≤ 4096) × (heads ≤ 4096) }
    ensures count { IfOk result (λ homes. length homes.items ≡ nodes + heads) }
    ensures alone { IfOk result (λ homes. (x : ℕ) → x < nodes + heads → home_at homes.items x ≡ first_home nodes x) }
{
    let Ok(mut homes) = Vec::with_capacity(alloc, (nodes + heads) as usize) else {
        return Err(NoMemory);
    };
    for place in 0..nodes + heads {
        if homes.push(end_of(nodes, place)).is_err() {
            return Err(NoMemory);
        }
    }
    Ok(homes)
}

/// The head whose end stands at a place.
fn end_of(nodes: u32, place: u32) -> Option<u32>
    ensures { result ≡ first_home nodes place }
{
    if place < nodes {
        None
    } else {
        Some(place - nodes)
    }
}
