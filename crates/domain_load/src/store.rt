//! Octets that are kept joined, in blocks of one size: what is appended is copied once, and no octet moves afterwards.
ghost use Rattle.std.specs.Prelude.{◌≡◌, ◌≤◌, ◌++◌, [], IfOk, OnErr, OnOk, drop, length, map, take, vec_capacity, vec_len};
ghost use Rattle.std.specs.List.{concat};
ghost use Rattle.domain_load.specs.Kept.{AreBlocks, filled, room};

use mms_types::Memory;
use std::alloc::Global;
use std::marker::Model;

/// The octets of a block.
const BLOCK: usize = 4096;

/// Octets in blocks, of which all but the last are full. Contracts see the list of all octets.
pub(crate) struct Store {
    blocks: Vec<Vec<u8>>,
    len: usize,
}

impl Model for Store {
    ghost use Rattle.std.specs.Prelude.{◌≡◌, ℕ, List, length, map};
    ghost use Rattle.std.specs.List.{concat};
    ghost use Rattle.domain_load.specs.Kept.{AreBlocks};

    ghost Value = { List ℕ };

    ghost view = { λ store. concat (map (λ block. block.items) store.blocks.items) };

    ghost invariant = { λ store. AreBlocks (map (λ block. block.items) store.blocks.items)
        × (store.len ≡ length (concat (map (λ block. block.items) store.blocks.items))) };
}

/// A block of these octets, with room for as many as a block has.
fn block_of(alloc: Global, octets: &[u8]) -> Result<Vec<u8>, Memory>
    ensures { IfOk result (λ block. block.items ≡ octets.now) }
{
    let mut block = Vec::with_capacity(alloc, BLOCK)?;
    block.extend_from_slice(octets)?;
    Ok(block)
}

/// Blocks of these octets, of which all but the last are full.
fn blocks_of(alloc: Global, octets: &[u8]) -> Result<Vec<Vec<u8>>, Memory>
    ensures joined { IfOk result
        (λ blocks. concat (map (λ block. block.items) blocks.items) ≡ octets.now) }
    ensures blocks { IfOk result (λ blocks. AreBlocks (map (λ block. block.items) blocks.items)) }
    ensures none { octets.now ≡ [] → IfOk result (λ blocks. blocks.items ≡ []) }
{
    let mut blocks = Vec::new(alloc);
    let mut rest = octets;
    while rest.len() > 0 {
        let (front, later) = rest.split_at(BLOCK.min(rest.len()));
        blocks.push(block_of(alloc, front)?)?;
        rest = later;
    }
    Ok(blocks)
}

/// Appends at most so many octets of a block, from that one on.
fn put_part(out: &mut Vec<u8>, block: &[u8], skip: usize, most: usize) -> Result<(), Memory>
    ensures { OnOk result (out.new.items ≡ out.old.items ++ take most (drop skip block.now)) }
{
    let (_, behind) = block.split_at(skip.min(block.len()));
    let (part, _) = behind.split_at(most.min(behind.len()));
    out.extend_from_slice(part)?;
    Ok(())
}

/// How many octets the last block has room for: none where there is no block.
fn room_in(blocks: &[Vec<u8>], octets: usize) -> usize
    requires blocks { AreBlocks (map (λ block. block.items) blocks.now) }
    requires octets { octets ≡ length (concat (map (λ block. block.items) blocks.now)) }
    requires most { octets ≤ 1048576 }
    ensures { result ≡ room (map (λ block. block.items) blocks.now) }
{
    blocks.len() * BLOCK - octets
}

/// Puts octets at the end of a block.
fn extend(block: &mut Vec<u8>, octets: &[u8]) -> Result<(), Memory>
    ensures appended { OnOk result (block.new.items ≡ block.old.items ++ octets.now) }
    ensures kept { OnErr result (block.new.items ≡ block.old.items) }
{
    block.extend_from_slice(octets)?;
    Ok(())
}

/// Puts octets at the end of the last block, where there is one.
fn fill(blocks: &mut Vec<Vec<u8>>, octets: &[u8]) -> Result<(), Memory>
    ensures filled { OnOk result (map (λ block. block.items) blocks.new.items
        ≡ filled octets.now (map (λ block. block.items) blocks.old.items)) }
    ensures kept { OnErr result (map (λ block. block.items) blocks.new.items
        ≡ map (λ block. block.items) blocks.old.items) }
    ensures capacity { vec_capacity blocks.new ≡ vec_capacity blocks.old }
    ensures len { vec_len blocks.new ≡ vec_len blocks.old }
{
    match blocks.last_mut() {
        None => Ok(()),
        Some(last) => extend(last, octets),
    }
}

/// The blocks, copied.
fn copied_blocks(alloc: Global, blocks: &[Vec<u8>]) -> Result<Vec<Vec<u8>>, Memory>
    ensures { IfOk result (λ copies. map (λ block. block.items) copies.items
        ≡ map (λ block. block.items) blocks.now) }
{
    let mut copies = Vec::new(alloc);
    for block in blocks {
        copies.push(block_of(alloc, block)?)?;
    }
    Ok(copies)
}

/// Of the octets of blocks, so many at most from that one on, copied.
fn gathered(alloc: Global, blocks: &[Vec<u8>], from: usize, most: usize) -> Result<Vec<u8>, Memory>
    ensures { IfOk result (λ octets. octets.items
        ≡ take most (drop from (concat (map (λ block. block.items) blocks.now)))) }
{
    let mut octets = Vec::with_capacity(alloc, most)?;
    let mut skip = from;
    for block in blocks {
        let left = most.saturating_sub(octets.len());
        if left == 0 {
            return Ok(octets);
        }
        put_part(&mut octets, block, skip, left)?;
        skip = skip.saturating_sub(block.len());
    }
    Ok(octets)
}

impl Store {
    /// No octets. Nothing is allocated.
    pub(crate) fn new(alloc: Global) -> Store
        ensures { result ≡ [] }
    {
        Store {
            blocks: Vec::new(alloc),
            len: 0,
        }
    }

    /// How many octets there are.
    pub(crate) fn len(&self) -> usize
        ensures { result ≡ length self.now }
    {
        self.len
    }

    /// Appends octets, which are copied once. Where memory is wanting all is as before.
    pub(crate) fn append(&mut self, alloc: Global, octets: &[u8]) -> Result<(), Memory>
        requires before { length self.old ≤ 1048576 }
        requires most { length octets.now ≤ 1048576 }
        ensures appended { OnOk result (self.new ≡ self.old ++ octets.now) }
        ensures kept { OnErr result (self.new ≡ self.old) }
    {
        let room = room_in(&self.blocks, self.len);
        let (front, back) = octets.split_at(room.min(octets.len()));
        let mut fresh = blocks_of(alloc, back)?;
        self.blocks.reserve(fresh.len())?;
        fill(&mut self.blocks, front)?;
        let Ok(()) = self.blocks.append(&mut fresh) else {
            unreachable!()
        };
        self.len += octets.len();
        Ok(())
    }

    /// Of the octets, at most so many from that one on, copied. The time doesn't grow with how many there are.
    pub(crate) fn piece(&self, alloc: Global, from: usize, most: usize) -> Result<Vec<u8>, Memory>
        ensures { IfOk result (λ octets. octets.items ≡ take most (drop from self.now)) }
    {
        let blocks = self.blocks.as_slice();
        let (_, behind) = blocks.split_at((from / BLOCK).min(blocks.len()));
        let count = most.min(self.len.saturating_sub(from));
        gathered(alloc, behind, from % BLOCK, count)
    }

    /// A copy.
    pub(crate) fn copy(&self, alloc: Global) -> Result<Store, Memory>
        ensures { IfOk result (λ store. store ≡ self.now) }
    {
        Ok(Store {
            blocks: copied_blocks(alloc, &self.blocks)?,
            len: self.len,
        })
    }
}

impl Drop for Store {
    fn drop(self) {
        let Store {
            blocks: _blocks,
            len: _,
        } = self;
    }
}
