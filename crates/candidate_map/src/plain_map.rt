ghost use Rattle.std.specs.Prelude.{◌≡◌, ℕ, ◌*◌, ◌<◌, ◌≤◌, ◌+◌, ◌↔◌, ◌||◌, true, false, length, replicate, slice_set, IfOk, IfSome, IfNone, IsNone};
ghost use Rattle.std.specs.Int.{bit_at};
ghost use Rattle.candidate_map.specs.Positions.{has, Has, IsFirstFrom, NoneFrom};
ghost use Rattle.candidate_map.specs.Words.{positions_of, is_in_word, HoldsBits, IsLowestFrom};

use sd_base::OutOfMemory;
use std::alloc::Global;
use std::marker::Model;

/// How many bits a word of a map has.
const WORD_BITS: u32 = 64;

/// A set of positions below a number of bits that is fixed when the map is made: the bit map
/// between the two stages of SS-CDC (SYSTOR 2019). A clause sees it as a list with one boolean a
/// position. It is kept in words of 64 bits.
#[derive(Debug, Drop)]
pub struct PlainMap {
    words: Vec<u64>,
    bits: u32,
}

impl Model for PlainMap {
    ghost use Rattle.std.specs.Prelude.{Bool, List};
    ghost use Rattle.candidate_map.specs.Words.{positions_of, HoldsBits};

    ghost Value = { List Bool };

    ghost view = { λ map. positions_of map.words.items map.bits };

    ghost invariant = { λ map. HoldsBits map.words.items map.bits };
}

impl PlainMap {
    /// The empty set of positions below `bits`. It fails only if memory runs out.
    pub fn new(alloc: Global, bits: u32) -> Result<PlainMap, OutOfMemory>
        ensures empty { IfOk result (λ map. map ≡ replicate bits false) }
    {
        let words = Vec::from_elem(alloc, 0, bits.div_ceil(WORD_BITS) as usize)?;
        Ok(PlainMap { words, bits })
    }

    /// The number of bits: all positions of the set lie below it.
    pub fn bits(&self) -> u32
        ensures bits { result ≡ length self.now }
    {
        self.bits
    }

    /// Whether a position is in the set.
    pub fn get(&self, p: u32) -> bool
        requires inside { p < length self.now }
        ensures member { result ≡ has self.now p }
    {
        (self.words[(p / WORD_BITS) as usize] >> (p % WORD_BITS)) & 1 == 1
    }

    /// Adds a position to the set, and changes nothing else of it. It takes no memory.
    pub fn set(&mut self, p: u32)
        requires inside { p < length self.old }
        ensures added { self.new ≡ slice_set self.old p true }
    {
        self.words[(p / WORD_BITS) as usize] |= 1 << (p % WORD_BITS);
    }

    /// Adds up to 64 positions at once, those of the bits that are set in the mask. The lowest bit
    /// of the mask is the first position of the word with this number. Nothing else of the set
    /// changes. It takes no memory.
    pub fn or_word(&mut self, word: u32, mask: u64)
        requires word_inside { WORD_BITS * word < length self.old }
        requires bits_inside { (b : ℕ) → bit_at mask b ≡ 1
            → WORD_BITS * word + b < length self.old }
        ensures bits { length self.new ≡ length self.old }
        ensures added { (p : ℕ) → has self.new p ≡ (has self.old p || is_in_word word mask p) }
    {
        self.words[word as usize] |= mask;
    }

    /// Adds each position of another set with as many bits. It goes word by word, passes over empty
    /// words, and takes no memory.
    pub fn or_map(&mut self, other: &PlainMap)
        requires same_bits { length other.now ≡ length self.old }
        ensures bits { length self.new ≡ length self.old }
        ensures added { (p : ℕ) → has self.new p ≡ (has self.old p || has other.now p) }
    {
        for index in 0..other.words.len() {
            let mask = other.words[index];
            if mask != 0 {
                self.or_word(index as u32, mask);
            }
        }
    }

    /// The least position of the set that is at or above `p`, which may be any number. It goes word
    /// by word, and takes no memory.
    pub fn next_from(&self, p: u32) -> Option<u32>
        ensures first { IfSome result (IsFirstFrom self.now p) }
        ensures none { IsNone result ↔ NoneFrom self.now p }
    {
        self.next_within(p, self.bits)
    }

    /// The same, if that position is not above `last`, which may be any number. It reads no word
    /// after that of `last`.
    pub fn next_within(&self, p: u32, last: u32) -> Option<u32>
        ensures first { IfSome result (IsFirstFrom self.now p) }
        ensures within { IfSome result (λ first. first ≤ last) }
        ensures none { IsNone result ↔ ((q : ℕ) → p ≤ q → q ≤ last → ¬ Has self.now q) }
    {
        match self.next_in_words(p, (last / WORD_BITS) as usize + 1) {
            Some(first) if first <= last => Some(first),
            _ => None,
        }
    }

    /// The same, if that position is in one of the first `words` words.
    fn next_in_words(&self, p: u32, words: usize) -> Option<u32>
        ensures first { IfSome result (IsFirstFrom self.now p) }
        ensures none { IfNone result ((q : ℕ) → p ≤ q → q < WORD_BITS * words → ¬ Has self.now q) }
    {
        let mut from = p % WORD_BITS;
        for index in (p / WORD_BITS) as usize..words.min(self.words.len()) {
            if let Some(bit) = lowest_from(self.words[index], from) {
                return Some(index as u32 * WORD_BITS + bit);
            }
            from = 0;
        }
        None
    }
}

/// The lowest set bit of a word that is at or above the place `from`.
fn lowest_from(word: u64, from: u32) -> Option<u32>
    requires in_word { from < WORD_BITS }
    ensures found { IfSome result (IsLowestFrom word from) }
    ensures none { IfNone result ((b : ℕ) → from ≤ b → bit_at word b ≡ 0) }
{
    let rest = word >> from;
    if rest == 0 {
        None
    } else {
        Some(from + rest.trailing_zeros())
    }
}
