//! Elements from left to right, as octets.

ghost use Rattle.std.specs.Prelude.{◌≡◌, ◌<◌, ◌≤◌, ◌++◌, ◌+◌, ◌-◌, ℕ, List, [], ◌∷◌, length, take, drop, vec_len, vec_capacity, OnOk, OnErr, IsTrue, ◌↔◌};
ghost use Rattle.ber_core.specs.Element.{head_of};
ghost use Rattle.ber_core.specs.Leaf.{complements};
ghost use Rattle.ber_core.specs.Spelling.{identifier_octets, digits, length_octets, integer_octets, element_octets};

use crate::element::Tag;
use crate::fault::Memory;
use std::alloc::Global;
use std::marker::Model;

/// The most octets that an identifier and a length have: three and nine.
const HEADER: usize = 12;

/// Writes elements one after the other. It is seen as the octets so far.
#[derive(Drop)]
pub struct Writer {
    bytes: Vec<u8>,
}

impl Model for Writer {
    ghost Value = { List ℕ };

    ghost view = { λ w. w.bytes.items };
}

/// How many digits a number has in base 256 where the first is below the bound.
#[tactic(auto, unfolding(crate::specs::Spelling::digits))]
fn width(bound: u16, most: u32, n: u64) -> u8
    requires low { 0 < bound }
    requires high { bound ≤ 256 }
    requires few { most ≤ 8 }
    ensures value { result ≡ length (digits bound most n) }
    ensures most { result ≤ most }
{
    if most == 0 {
        0
    } else if n < u64::from(bound) {
        1
    } else {
        width(bound, most - 1, n / 256) + 1
    }
}

/// Appends a number in base 256, the most significant digit first.
#[tactic(auto, unfolding(crate::specs::Spelling::digits))]
fn push_digits(bytes: &mut Vec<u8>, bound: u16, most: u32, n: u64)
    requires low { 0 < bound }
    requires high { bound ≤ 256 }
    requires room { vec_len bytes.old + most ≤ vec_capacity bytes.old }
    ensures items { bytes.new.items ≡ bytes.old.items ++ digits bound most n }
    ensures few { vec_len bytes.new ≤ vec_len bytes.old + most }
    ensures capacity { vec_capacity bytes.new ≡ vec_capacity bytes.old }
{
    if most == 0 {
        return;
    }
    if n < u64::from(bound) {
        bytes.push_reserved(n as u8);
        return;
    }
    push_digits(bytes, bound, most - 1, n / 256);
    bytes.push_reserved((n % 256) as u8);
}

/// Appends the complements of the digits of a number.
#[tactic(auto, unfolding(crate::specs::Spelling::digits))]
fn push_complements(bytes: &mut Vec<u8>, most: u32, n: u64)
    requires room { vec_len bytes.old + most ≤ vec_capacity bytes.old }
    ensures items { bytes.new.items ≡ bytes.old.items ++ complements (digits 128 most n) }
    ensures few { vec_len bytes.new ≤ vec_len bytes.old + most }
    ensures capacity { vec_capacity bytes.new ≡ vec_capacity bytes.old }
{
    if most == 0 {
        return;
    }
    if n < 128 {
        bytes.push_reserved(255 - n as u8);
        return;
    }
    push_complements(bytes, most - 1, n / 256);
    bytes.push_reserved(255 - (n % 256) as u8);
}

/// The first octet of an identifier, with its low five bits.
fn head(tag: Tag, low: u8) -> u8
    requires class { tag.class < 4 }
    requires low { low < 32 }
    ensures { result ≡ head_of tag + low }
{
    64 * tag.class + if tag.constructed { 32 } else { 0 } + low
}

#[tactic(auto, unfolding(crate::specs::Spelling::identifier_octets))]
fn push_identifier(bytes: &mut Vec<u8>, tag: Tag)
    requires class { tag.class < 4 }
    requires number { tag.number < 16384 }
    requires room { vec_len bytes.old + 3 ≤ vec_capacity bytes.old }
    ensures items { bytes.new.items ≡ bytes.old.items ++ identifier_octets tag }
    ensures few { vec_len bytes.new ≤ vec_len bytes.old + 3 }
    ensures capacity { vec_capacity bytes.new ≡ vec_capacity bytes.old }
{
    if tag.number < 31 {
        bytes.push_reserved(head(tag, tag.number as u8));
    } else if tag.number < 128 {
        bytes.push_reserved(head(tag, 31));
        bytes.push_reserved(tag.number as u8);
    } else {
        bytes.push_reserved(head(tag, 31));
        bytes.push_reserved(128 + (tag.number / 128) as u8);
        bytes.push_reserved((tag.number % 128) as u8);
    }
}

#[tactic(auto, unfolding(crate::specs::Spelling::length_octets))]
fn push_length(bytes: &mut Vec<u8>, n: u64)
    requires room { vec_len bytes.old + 9 ≤ vec_capacity bytes.old }
    ensures items { bytes.new.items ≡ bytes.old.items ++ length_octets n }
    ensures few { vec_len bytes.new ≤ vec_len bytes.old + 9 }
    ensures capacity { vec_capacity bytes.new ≡ vec_capacity bytes.old }
{
    if n < 128 {
        bytes.push_reserved(n as u8);
    } else {
        bytes.push_reserved(128 + width(256, 8, n));
        push_digits(bytes, 256, 8, n);
    }
}

impl Writer {
    /// A writer of no octets, which keeps the allocator.
    pub fn new(alloc: Global) -> Writer
        ensures { result ≡ [] }
    {
        Writer {
            bytes: Vec::new(alloc),
        }
    }

    /// The octets so far.
    pub fn octets(&self) -> &[u8]
        ensures { result.now ≡ self.now }
    {
        self.bytes.as_slice()
    }

    /// How many octets there are so far.
    pub fn len(&self) -> usize
        ensures { result ≡ length self.now }
    {
        self.bytes.len()
    }

    /// Whether there is no octet so far.
    pub fn is_empty(&self) -> bool
        ensures { IsTrue result ↔ (self.now ≡ []) }
    {
        self.bytes.is_empty()
    }

    /// Keeps so many of the octets, from the first.
    pub fn truncate(&mut self, len: usize)
        requires { len ≤ length self.old }
        ensures { self.new ≡ take len self.old }
    {
        self.bytes.truncate(len);
    }

    /// Appends octets as they are. Where memory is wanting, nothing is appended.
    pub fn raw(&mut self, octets: &[u8]) -> Result<(), Memory>
        ensures ok { OnOk result (self.new ≡ self.old ++ octets.now) }
        ensures err { OnErr result (self.new ≡ self.old) }
    {
        self.bytes.extend_from_slice(octets)?;
        Ok(())
    }

    /// Appends one element: the shortest identifier, the shortest length and the contents (ITU-T
    /// X.690, 8.1.2 to 8.1.4). The class is at most 3 and the number at most 16,383. Where memory is
    /// wanting, nothing is appended.
    pub fn element(&mut self, tag: Tag, contents: &[u8]) -> Result<(), Memory>
        requires class { tag.class ≤ 3 }
        requires number { tag.number ≤ 16383 }
        ensures ok { OnOk result (self.new ≡ self.old ++ element_octets tag contents.now) }
        ensures err { OnErr result (self.new ≡ self.old) }
    {
        append_element(&mut self.bytes, tag, contents)
    }

    /// Appends the element of a number, its contents in the shortest two's complement (ITU-T X.690,
    /// 8.3). The class is at most 3 and the number of the tag at most 16,383. Where memory is
    /// wanting, nothing is appended.
    pub fn integer(&mut self, tag: Tag, n: i64) -> Result<(), Memory>
        requires class { tag.class ≤ 3 }
        requires number { tag.number ≤ 16383 }
        ensures ok { OnOk result (self.new ≡ self.old ++ element_octets tag (integer_octets n)) }
        ensures err { OnErr result (self.new ≡ self.old) }
    {
        append_integer(&mut self.bytes, tag, n)
    }

    /// Appends a number as contents, in the shortest two's complement (ITU-T X.690, 8.3). Where memory is
    /// wanting, nothing is appended.
    pub fn number(&mut self, n: i64) -> Result<(), Memory>
        ensures ok { OnOk result (self.new ≡ self.old ++ integer_octets n) }
        ensures err { OnErr result (self.new ≡ self.old) }
    {
        append_number(&mut self.bytes, n)
    }

    /// Makes the octets from this place on the contents of one element (ITU-T X.690, 8.1.2 to 8.1.4),
    /// so that elements within elements are written without a buffer of their own. The class is at
    /// most 3 and the number at most 16,383. Where memory is wanting, nothing is changed.
    pub fn enclose(&mut self, since: usize, tag: Tag) -> Result<(), Memory>
        requires since { since ≤ length self.old }
        requires class { tag.class ≤ 3 }
        requires number { tag.number ≤ 16383 }
        ensures ok { OnOk result (self.new
            ≡ take since self.old ++ element_octets tag (drop since self.old)) }
        ensures err { OnErr result (self.new ≡ self.old) }
    {
        enclose_from(&mut self.bytes, since, tag)
    }

    /// The octets, without a copy.
    pub fn finish(self) -> Vec<u8>
        ensures { result.items ≡ self }
    {
        let Writer { bytes } = self;
        bytes
    }
}

/// Appends one element: on a short path where the identifier and the length have one octet each.
#[tactic(auto, using(crate::proofs::Short::element))]
fn append_element(bytes: &mut Vec<u8>, tag: Tag, contents: &[u8]) -> Result<(), Memory>
    requires class { tag.class < 4 }
    requires number { tag.number < 16384 }
    ensures ok { OnOk result (bytes.new.items
        ≡ bytes.old.items ++ element_octets tag contents.now) }
    ensures err { OnErr result (bytes.new.items ≡ bytes.old.items) }
{
    if tag.number < 31 && contents.len() < 128 && has_room(bytes, contents.len() + 2) {
        let first = head(tag, tag.number as u8);
        append_short(bytes, first, contents.len() as u8, contents);
        Ok(())
    } else {
        append_any(bytes, tag, contents)
    }
}

/// Appends two octets and more, for which there is room.
fn append_short(bytes: &mut Vec<u8>, first: u8, second: u8, more: &[u8])
    requires { vec_len bytes.old + length more.now + 2 ≤ vec_capacity bytes.old }
    ensures { bytes.new.items ≡ bytes.old.items ++ first ∷ second ∷ more.now }
{
    bytes.push_reserved(first);
    bytes.push_reserved(second);
    append_reserved(bytes, more);
}

/// Whether so many octets more need no memory.
fn has_room(bytes: &Vec<u8>, more: usize) -> bool
    requires { more < 256 }
    ensures { IsTrue result ↔ (vec_len bytes.now + more ≤ vec_capacity bytes.now) }
{
    bytes.len() + more <= bytes.capacity()
}

/// Appends one element, whatever its identifier and its length.
#[cold]
#[inline(never)]
#[tactic(auto, unfolding(crate::specs::Spelling::element_octets))]
fn append_any(bytes: &mut Vec<u8>, tag: Tag, contents: &[u8]) -> Result<(), Memory>
    requires class { tag.class < 4 }
    requires number { tag.number < 16384 }
    ensures ok { OnOk result (bytes.new.items
        ≡ bytes.old.items ++ element_octets tag contents.now) }
    ensures err { OnErr result (bytes.new.items ≡ bytes.old.items) }
{
    bytes.reserve(contents.len() + HEADER)?;
    push_identifier(bytes, tag);
    push_length(bytes, contents.len() as u64);
    append_reserved(bytes, contents);
    Ok(())
}

/// Appends octets, for which there is room.
fn append_reserved(bytes: &mut Vec<u8>, octets: &[u8])
    requires room { vec_len bytes.old + length octets.now ≤ vec_capacity bytes.old }
    ensures items { bytes.new.items ≡ bytes.old.items ++ octets.now }
{
    let _appended = bytes.extend_from_slice(octets);
}

/// Appends the element of a number: on a short path where the identifier and the number have one octet each.
#[tactic(auto, using(crate::proofs::Short::small_number))]
fn append_integer(bytes: &mut Vec<u8>, tag: Tag, n: i64) -> Result<(), Memory>
    requires class { tag.class < 4 }
    requires number { tag.number < 16384 }
    ensures ok { OnOk result (bytes.new.items
        ≡ bytes.old.items ++ element_octets tag (integer_octets n)) }
    ensures err { OnErr result (bytes.new.items ≡ bytes.old.items) }
{
    if tag.number < 31 && 0 <= n && n < 128 && has_room(bytes, 3) {
        append_three(bytes, head(tag, tag.number as u8), 1, n as u8);
        Ok(())
    } else {
        append_any_integer(bytes, tag, n)
    }
}

/// Appends three octets, for which there is room.
fn append_three(bytes: &mut Vec<u8>, first: u8, second: u8, third: u8)
    requires { vec_len bytes.old + 3 ≤ vec_capacity bytes.old }
    ensures { bytes.new.items ≡ bytes.old.items ++ first ∷ second ∷ third ∷ [] }
{
    bytes.push_reserved(first);
    bytes.push_reserved(second);
    bytes.push_reserved(third);
}

/// Appends the element of a number, whatever its identifier and the number.
#[cold]
#[inline(never)]
fn append_any_integer(bytes: &mut Vec<u8>, tag: Tag, n: i64) -> Result<(), Memory>
    requires class { tag.class < 4 }
    requires number { tag.number < 16384 }
    ensures ok { OnOk result (bytes.new.items
        ≡ bytes.old.items ++ element_octets tag (integer_octets n)) }
    ensures err { OnErr result (bytes.new.items ≡ bytes.old.items) }
{
    bytes.reserve(HEADER)?;
    push_identifier(bytes, tag);
    push_integer(bytes, n);
    Ok(())
}

/// Appends the octets of a number.
fn append_number(bytes: &mut Vec<u8>, n: i64) -> Result<(), Memory>
    ensures ok { OnOk result (bytes.new.items ≡ bytes.old.items ++ integer_octets n) }
    ensures err { OnErr result (bytes.new.items ≡ bytes.old.items) }
{
    bytes.reserve(HEADER)?;
    if n >= 0 {
        push_digits(bytes, 128, 8, n as u64);
    } else {
        push_complements(bytes, 8, (-1 - n) as u64);
    }
    Ok(())
}

/// Appends how many octets a number has, and these.
fn push_integer(bytes: &mut Vec<u8>, n: i64)
    requires room { vec_len bytes.old + 9 ≤ vec_capacity bytes.old }
    ensures items { bytes.new.items
        ≡ bytes.old.items ++ length (integer_octets n) ∷ integer_octets n }
{
    if n >= 0 {
        push_natural(bytes, n as u64);
    } else {
        push_negative(bytes, (-1 - n) as u64);
    }
}

/// Appends how many octets a number from 0 has, and these.
fn push_natural(bytes: &mut Vec<u8>, n: u64)
    requires room { vec_len bytes.old + 9 ≤ vec_capacity bytes.old }
    ensures items { bytes.new.items ≡ bytes.old.items ++ length (digits 128 8 n) ∷ digits 128 8 n }
{
    bytes.push_reserved(width(128, 8, n));
    push_digits(bytes, 128, 8, n);
}

/// Appends how many octets a number below 0 has, and these. Its complement is given.
fn push_negative(bytes: &mut Vec<u8>, complement: u64)
    requires room { vec_len bytes.old + 9 ≤ vec_capacity bytes.old }
    ensures items { bytes.new.items
        ≡ bytes.old.items ++ length (complements (digits 128 8 complement))
        ∷ complements (digits 128 8 complement) }
{
    bytes.push_reserved(width(128, 8, complement));
    push_complements(bytes, 8, complement);
}

/// Makes octets the contents of an element: on a short path where its identifier and its length have one octet each.
fn enclose_from(bytes: &mut Vec<u8>, since: usize, tag: Tag) -> Result<(), Memory>
    requires since { since ≤ vec_len bytes.old }
    requires class { tag.class < 4 }
    requires number { tag.number < 16384 }
    ensures ok { OnOk result (bytes.new.items
        ≡ take since bytes.old.items ++ element_octets tag (drop since bytes.old.items)) }
    ensures err { OnErr result (bytes.new.items ≡ bytes.old.items) }
{
    let size = bytes.len() - since;
    if tag.number < 31 && size < 128 && has_room(bytes, 2) {
        insert_two(bytes, since, head(tag, tag.number as u8), size as u8);
        Ok(())
    } else {
        enclose_any(bytes, since, tag)
    }
}

/// Puts two octets, for which there is room, before those from this place on.
fn insert_two(bytes: &mut Vec<u8>, at: usize, first: u8, second: u8)
    requires place { at ≤ vec_len bytes.old }
    requires room { vec_len bytes.old + 2 ≤ vec_capacity bytes.old }
    ensures { bytes.new.items ≡ take at bytes.old.items ++ first ∷ second
        ∷ drop at bytes.old.items }
{
    bytes.push_reserved(first);
    bytes.push_reserved(second);
    put_in_front(&mut bytes.as_mut_slice()[at..], first, second);
}

/// Moves all octets but the last two up by two, and writes two in front of them.
fn put_in_front(octets: &mut [u8], first: u8, second: u8)
    requires { 2 ≤ length octets.old }
    ensures { octets.new ≡ first ∷ second ∷ take (length octets.old - 2) octets.old }
{
    lift(octets);
    octets[0] = first;
    octets[1] = second;
}

/// Moves all octets but the last two up by two.
fn lift(octets: &mut [u8])
    requires { 2 ≤ length octets.old }
    ensures moved { drop 2 octets.new ≡ take (length octets.old - 2) octets.old }
    ensures len { length octets.new ≡ length octets.old }
{
    let size = octets.len() - 2;
    if 8 <= size && size <= 16 {
        lift_eight(octets, size);
    } else if 4 <= size && size < 8 {
        lift_four(octets, size);
    } else {
        octets.copy_within(0..size, 2);
    }
}

/// Moves 8 to 16 octets up by two, as the first eight and the last eight of them.
fn lift_eight(octets: &mut [u8], size: usize)
    requires low { 8 ≤ size }
    requires high { size ≤ 16 }
    requires len { length octets.old ≡ size + 2 }
    ensures moved { drop 2 octets.new ≡ take size octets.old }
    ensures len { length octets.new ≡ length octets.old }
{
    let mut front = [0u8; 8];
    front.copy_from_slice(&octets[..8]);
    let mut back = [0u8; 8];
    back.copy_from_slice(&octets[size - 8..size]);
    octets[2..10].copy_from_slice(&front);
    octets[size - 6..size + 2].copy_from_slice(&back);
}

/// Moves 4 to 8 octets up by two, as the first four and the last four of them.
fn lift_four(octets: &mut [u8], size: usize)
    requires low { 4 ≤ size }
    requires high { size ≤ 8 }
    requires len { length octets.old ≡ size + 2 }
    ensures moved { drop 2 octets.new ≡ take size octets.old }
    ensures len { length octets.new ≡ length octets.old }
{
    let mut front = [0u8; 4];
    front.copy_from_slice(&octets[..4]);
    let mut back = [0u8; 4];
    back.copy_from_slice(&octets[size - 4..size]);
    octets[2..6].copy_from_slice(&front);
    octets[size - 2..size + 2].copy_from_slice(&back);
}

/// Makes octets the contents of an element, whatever its identifier and its length.
#[cold]
#[inline(never)]
fn enclose_any(bytes: &mut Vec<u8>, since: usize, tag: Tag) -> Result<(), Memory>
    requires since { since ≤ vec_len bytes.old }
    requires class { tag.class < 4 }
    requires number { tag.number < 16384 }
    ensures ok { OnOk result (bytes.new.items
        ≡ take since bytes.old.items ++ element_octets tag (drop since bytes.old.items)) }
    ensures err { OnErr result (bytes.new.items ≡ bytes.old.items) }
{
    let size = (bytes.len() - since) as u64;
    bytes.reserve(HEADER)?;
    open(bytes, since, identifier_width(tag) + length_width(size));
    put_header(bytes, since, tag, size);
    Ok(())
}

/// How many octets the identifier of a tag has.
#[tactic(auto, unfolding(crate::specs::Spelling::identifier_octets))]
fn identifier_width(tag: Tag) -> usize
    ensures value { result ≡ length (identifier_octets tag) }
    ensures most { result ≤ 3 }
{
    if tag.number < 31 {
        1
    } else if tag.number < 128 {
        2
    } else {
        3
    }
}

/// How many octets a length has.
#[tactic(auto, unfolding(crate::specs::Spelling::length_octets))]
fn length_width(n: u64) -> usize
    ensures value { result ≡ length (length_octets n) }
    ensures most { result ≤ 9 }
{
    if n < 128 {
        1
    } else {
        1 + usize::from(width(256, 8, n))
    }
}

/// Moves the octets from this place on up by so many, for which there is room.
fn open(bytes: &mut Vec<u8>, at: usize, more: usize)
    requires place { at ≤ vec_len bytes.old }
    requires room { vec_len bytes.old + more ≤ vec_capacity bytes.old }
    ensures front { take at bytes.new.items ≡ take at bytes.old.items }
    ensures rest { drop (at + more) bytes.new.items ≡ drop at bytes.old.items }
    ensures len { vec_len bytes.new ≡ vec_len bytes.old + more }
{
    let end = bytes.len();
    let _grown = bytes.resize(end + more, 0);
    bytes.copy_within(at..end, at + more);
}

/// Writes an identifier and a length over the octets from this place on.
fn put_header(bytes: &mut Vec<u8>, at: usize, tag: Tag, size: u64)
    requires class { tag.class < 4 }
    requires number { tag.number < 16384 }
    requires room { at + length (identifier_octets tag) + length (length_octets size)
        ≤ vec_len bytes.old }
    ensures { bytes.new.items ≡ take at bytes.old.items
        ++ (identifier_octets tag ++ (length_octets size
        ++ drop (at + length (identifier_octets tag) + length (length_octets size))
        bytes.old.items)) }
{
    let next = put_identifier(bytes, at, tag);
    let _end = put_length(bytes, next, size);
}

#[tactic(auto, unfolding(crate::specs::Spelling::identifier_octets))]
fn put_identifier(bytes: &mut Vec<u8>, at: usize, tag: Tag) -> usize
    requires class { tag.class < 4 }
    requires number { tag.number < 16384 }
    requires room { at + length (identifier_octets tag) ≤ vec_len bytes.old }
    ensures end { result ≡ at + length (identifier_octets tag) }
    ensures front { take result bytes.new.items ≡ take at bytes.old.items ++ identifier_octets tag }
    ensures rest { drop result bytes.new.items ≡ drop result bytes.old.items }
    ensures len { vec_len bytes.new ≡ vec_len bytes.old }
{
    if tag.number < 31 {
        put(bytes, at, head(tag, tag.number as u8))
    } else if tag.number < 128 {
        let next = put(bytes, at, head(tag, 31));
        put(bytes, next, tag.number as u8)
    } else {
        let second = put(bytes, at, head(tag, 31));
        let third = put(bytes, second, 128 + (tag.number / 128) as u8);
        put(bytes, third, (tag.number % 128) as u8)
    }
}

#[tactic(auto, unfolding(crate::specs::Spelling::length_octets))]
fn put_length(bytes: &mut Vec<u8>, at: usize, n: u64) -> usize
    requires room { at + length (length_octets n) ≤ vec_len bytes.old }
    ensures end { result ≡ at + length (length_octets n) }
    ensures front { take result bytes.new.items ≡ take at bytes.old.items ++ length_octets n }
    ensures rest { drop result bytes.new.items ≡ drop result bytes.old.items }
    ensures len { vec_len bytes.new ≡ vec_len bytes.old }
{
    if n < 128 {
        put(bytes, at, n as u8)
    } else {
        let next = put(bytes, at, 128 + width(256, 8, n));
        put_digits(bytes, next, 8, n)
    }
}

/// Writes a number in base 256.
#[tactic(auto, unfolding(crate::specs::Spelling::digits))]
fn put_digits(bytes: &mut Vec<u8>, at: usize, most: u32, n: u64) -> usize
    requires room { at + length (digits 256 most n) ≤ vec_len bytes.old }
    ensures end { result ≡ at + length (digits 256 most n) }
    ensures front { take result bytes.new.items ≡ take at bytes.old.items ++ digits 256 most n }
    ensures rest { drop result bytes.new.items ≡ drop result bytes.old.items }
    ensures len { vec_len bytes.new ≡ vec_len bytes.old }
{
    if most == 0 {
        return at;
    }
    if n < 256 {
        return put(bytes, at, n as u8);
    }
    let next = put_digits(bytes, at, most - 1, n / 256);
    put(bytes, next, (n % 256) as u8)
}

/// Writes one octet over the one at this place, and tells the next place.
fn put(bytes: &mut Vec<u8>, at: usize, octet: u8) -> usize
    requires room { at < vec_len bytes.old }
    ensures end { result ≡ at + 1 }
    ensures front { take result bytes.new.items ≡ take at bytes.old.items ++ octet ∷ [] }
    ensures rest { drop result bytes.new.items ≡ drop result bytes.old.items }
    ensures len { vec_len bytes.new ≡ vec_len bytes.old }
{
    bytes[at] = octet;
    at + 1
}
