// From an open block to a closed one, and on to the line.
ghost use Rattle.std.specs.Prelude.{◌≡◌, ◌<◌, ◌≤◌, true, [], List, ℕ, map, length, Some, Ok, OnErr, slice_index, nat_le};
ghost use Rattle.acknowledgement.specs.Acu.{acu_of};
ghost use Rattle.blocks.specs.Block.{Opened, proper, leaving, putting, contents_of, block_of, sound};
ghost use Rattle.coding.specs.Word.{word_of, reading_of};

use acknowledgement::Acu;
use arrayvec::ArrayVec;
use reserved::Codes;
use std::array;
use std::marker::Model;
use words::{Content, Refusal};

/// A block that still takes contents. Clauses see the codes that it was begun with, and the contents that were put.
#[derive(Debug, Drop)]
pub struct OpenBlock {
    codes: Codes,
    contents: ArrayVec<Content, 11>,
}

impl Model for OpenBlock {
    ghost Value = { Opened };

    ghost view = { λ block. record { codes = block.codes; contents = block.contents.items } };

    ghost invariant = { λ block. proper (record { codes = block.codes; contents = block.contents.items }) ≡ true };
}

/// A block that is complete: twelve words that check, the acknowledgement unit's last. Clauses see the words.
#[derive(Debug, Drop)]
pub struct ClosedBlock {
    words: [u32; 12],
}

impl Model for ClosedBlock {
    ghost Value = { List ℕ };

    ghost view = { λ block. block.words };

    ghost invariant = { λ block. sound block.words ≡ true };
}

impl OpenBlock {
    /// A block with nothing in it.
    pub fn begin(codes: Codes) -> OpenBlock
        ensures { result ≡ record { codes = codes; contents = [] } }
    {
        OpenBlock {
            codes,
            contents: ArrayVec::new(),
        }
    }

    /// One content more. A content from 2^20 on is refused, and so is a twelfth; the block then stays as it was.
    pub fn put(&mut self, content: u32) -> Result<(), Refusal>
        ensures answer { leaving self.new result ≡ putting content self.old }
        ensures same { OnErr result (self.new ≡ self.old) }
        ensures proper { proper self.new ≡ true }
    {
        // Asked first, so that the clause `proper` is known of a content that is out of its range, too.
        let full = self.is_full();
        let content = Content::try_from(content)?;
        if full {
            return Err(Refusal::BlockFull);
        }
        self.contents.push(content);
        Ok(())
    }

    /// Whether eleven contents stand already. The clause `proper` tells what holds of every open block to a caller that has no more
    /// than a reference to one.
    pub fn is_full(&self) -> bool
        ensures full { result ≡ nat_le 11 (length self.now.contents) }
        ensures proper { proper self.now ≡ true }
    {
        self.contents.is_full()
    }

    // The content of a place of the closed block, counted from 0: what was put there, the place's SYU, or at the end the ACU. The
    // clause `few` tells `close`, which uses no field itself, that the ACU has its place.
    #[tactic(auto, using(crate::proofs::Places::at_left, crate::proofs::Places::at_last))]
    fn content_at(&self, i: usize, acu: Content) -> Content
        requires { i < 12 }
        ensures value { result ≡ slice_index (contents_of self.now acu) i }
        ensures few { length self.now.contents ≤ 11 }
    {
        match self.contents.get(i) {
            Some(content) => *content,
            None if i < 11 => self.codes.syu(i as u32 + 1).unwrap(),
            None => acu,
        }
    }

    /// The block closed: each place that is left of the eleven gets its SYU, and the ACU comes last.
    pub fn close(self, acu: Acu) -> ClosedBlock
        ensures words { result ≡ block_of self (acu_of acu) }
        ensures reads { map reading_of result ≡ map Some (contents_of self (acu_of acu)) }
    {
        let acu = acu.content();
        ClosedBlock {
            words: array::from_fn(|i| self.content_at(i, acu).word()),
        }
    }
}

impl ClosedBlock {
    /// The word of the ACU. The block is not used up, and the clause `sound` tells what holds of every closed block to a caller that has
    /// no more than a reference to one.
    pub fn acu_word(&self) -> u32
        ensures value { result ≡ slice_index self.now 11 }
        ensures sound { sound self.now ≡ true }
    {
        let [.., acu] = self.words;
        acu
    }

    /// The twelve words of the block, which is used up.
    pub fn send(self) -> [u32; 12]
        ensures value { result ≡ self }
        ensures sound { sound result ≡ true }
    {
        self.words
    }
}
