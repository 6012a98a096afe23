//! Where a text is cut into blocks: the line and the block in progress.
ghost use Rattle.std.specs.Prelude.{◌≡◌, ◌⊎◌, ℕ, ◌+◌, ◌-◌, ◌^◌, ◌<◌, ◌≤◌, ◌&&◌, ◌∷◌, [], ◌++◌, List, length, take, true, false, IfOk, OnOk, IfSome, IfNone, if◌then◌else◌};
ghost use Rattle.std.specs.List.{list_all, list_any, position_or_len};
ghost use Rattle.graph_text.specs.Lines.{is_blank, is_blank_line, is_content_line, without_return};
ghost use Rattle.graph_text.specs.Blocks.{blocks, complete, name_of_lines};
ghost use Rattle.graph_text.specs.Cutter.{name_shown};
ghost use Rattle.graph_text.specs.Progress.{Progress, left_by, is_feed, after_byte, with_line, with_open, block_in};

use crate::block::Block;
use crate::draft::Draft;
use crate::fields::{blanks_in_front, is_hash_text, is_run_text, name_in_text};
use crate::open_line::OpenLine;
use dag_net::Mode;
use flow_io::Bytes;
use std::alloc::{AllocError, Global};
use std::mem;

/// How many bytes stand before the first line feed, or are there at all.
fn line_end(bytes: &[u8]) -> usize
    ensures place { result ≡ position_or_len is_feed bytes.now }
    ensures within { result ≤ length bytes.now }
{
    bytes
        .iter()
        .position(|b| *b == b'\n')
        .unwrap_or(bytes.len())
}

/// The name that the first line of a block gives it, by what is shown of the line.
fn block_name(alloc: Global, is_long: bool, text: &[u8]) -> Result<Bytes, AllocError>
    ensures { IfOk result (λ name. name ≡ name_shown is_long text.now) }
{
    if is_long || !is_hash_text(text) || is_run_text(text) {
        return Ok(Bytes::from_vec(Vec::new(alloc)));
    }
    let name = Vec::from_slice(alloc, name_in_text(text))?;
    Ok(Bytes::from_vec(name))
}

/// The numbers of blocks and lines of a text so far, its line in progress, and its block in progress.
#[derive(Drop)]
pub struct Cutter {
    alloc: Global,
    mode: Mode,
    /// How many blocks are complete.
    blocks: u64,
    /// The number of the line in progress.
    line: u64,
    open_line: OpenLine,
    /// How many lines of the block in progress have ended.
    ended: u64,
    name: Bytes,
    draft: Draft,
}

impl Cutter {
    ghost use Rattle.graph_text.specs.Cutter.{Holds, HoldsBlock, IsCounted, NoMark, MayComplete, IsMark, Adds, GoesOn, KeepsPlace, next_begun, Completes, Continues, Cuts, handed};

    /// Nothing of a text yet. Takes no memory.
    pub fn new(alloc: Global, mode: Mode) -> Cutter
        ensures empty { Holds result (left_by []) }
        ensures counted { IsCounted result }
        ensures mode { result.mode ≡ mode }
    {
        Cutter {
            alloc,
            mode,
            blocks: 0,
            line: 1,
            open_line: OpenLine::new(alloc),
            ended: 0,
            name: Bytes::from_vec(Vec::new(alloc)),
            draft: Draft::new(alloc, mode),
        }
    }

    /// Whether a `#` would complete the block in progress: a content line of it has ended, and the line in progress has
    /// blanks alone.
    fn may_complete(&self) -> bool
        ensures tells { (left : Progress) → Holds self.now left
            → result ≡ (list_all is_blank left.open_line && list_any is_content_line left.ended) }
        ensures ended { result ≡ true → 0 < self.now.ended }
    {
        self.ended > 0 && self.open_line.is_blank() && self.draft.is_filled()
    }

    /// The bytes up to and with a `#` that completes the block in progress, where they begin with blanks and such a `#`.
    fn mark_in<'a>(&self, rest: &'a [u8]) -> Option<&'a [u8]>
        ensures none { IfNone result ((left : Progress) → Holds self.now left → NoMark left rest.now) }
        ensures some { IfSome result (λ mark. (0 < self.now.ended) × IsMark rest.now mark.now) }
        ensures filled { IfSome result (λ mark. (left : Progress) → Holds self.now left → MayComplete left) }
    {
        if !self.may_complete() {
            return None;
        }
        let blanks = blanks_in_front(rest);
        if blanks < rest.len() && rest[blanks] == b'#' {
            Some(&rest[..blanks + 1])
        } else {
            None
        }
    }

    /// Takes the block in progress out, as one that is complete.
    fn complete(&mut self) -> Result<Block, AllocError>
        requires { IsCounted self.old }
        ensures block { IfOk result (λ block. (lines : List (List ℕ)) → HoldsBlock self.old (self.old.line - self.old.ended) lines
            → list_all is_blank_line lines ≡ false
            → block ≡ handed self.old.mode (record { index = self.old.blocks + 1; line = self.old.line - self.old.ended; lines = lines })) }
        ensures empty { (first : ℕ) → HoldsBlock self.new first [] }
        ensures kept { KeepsPlace self.old self.new }
    {
        let line = self.line - self.ended;
        let draft = mem::replace(&mut self.draft, Draft::new(self.alloc, self.mode));
        let name = mem::replace(&mut self.name, Bytes::from_vec(Vec::new(self.alloc)));
        let body = draft.into_body(self.alloc)?;
        Ok(Block {
            index: self.blocks + 1,
            line,
            name,
            body,
        })
    }

    /// Completes the block in progress, and begins the next one with these blanks and `#`.
    fn begin_next(&mut self, mark: &[u8]) -> Result<Block, AllocError>
        requires counted { IsCounted self.old }
        requires some { 0 < self.old.ended }
        requires one_line { list_any is_feed mark.now ≡ false }
        ensures block { IfOk result (λ block. (left : Progress) → Holds self.old left → MayComplete left
            → block ≡ handed self.old.mode (block_in left left.ended)) }
        ensures holds { OnOk result ((left : Progress) → Holds self.old left → Holds self.new (next_begun left mark.now)) }
        ensures counted { OnOk result (IsCounted self.new) }
        ensures mode { self.new.mode ≡ self.old.mode }
    {
        let block = self.complete()?;
        self.blocks += 1;
        self.ended = 0;
        self.open_line.extend(mark)?;
        Ok(block)
    }

    /// Whether the line in progress is a line of the block in progress, where it ends here. A blank line is none before the
    /// block has begun.
    fn is_of_block(&self) -> bool
        ensures { (left : Progress) → Holds self.now left
            → with_line left.ended (without_return left.open_line)
            ≡ (if result then left.ended ++ without_return left.open_line ∷ [] else left.ended) }
    {
        self.ended > 0 || !self.open_line.is_blank_line()
    }

    /// Notes the name of the block in progress, where the line in progress is its first.
    fn note_name(&mut self) -> Result<(), AllocError>
        ensures name { OnOk result ((left : Progress) → Holds self.old left
            → self.new.name ≡ name_of_lines (left.ended ++ without_return left.open_line ∷ [])) }
        ensures kept { KeepsPlace self.old self.new }
        ensures draft { self.new.draft ≡ self.old.draft }
    {
        if self.ended > 0 {
            return Ok(());
        }
        let (is_long, text) = self.open_line.line();
        self.name = block_name(self.alloc, is_long, text)?;
        Ok(())
    }

    /// Gives the line in progress to the block in progress, and answers whether it is a line of it.
    fn add_line(&mut self) -> Result<bool, AllocError>
        ensures adds { IfOk result (λ is_added. (left : Progress) → Holds self.old left → length left.ended ≤ left.line
            → Adds self.new left is_added) }
        ensures kept { KeepsPlace self.old self.new }
    {
        if !self.is_of_block() {
            return Ok(false);
        }
        self.note_name()?;
        let (is_long, text) = self.open_line.line();
        self.draft.add(self.line, is_long, text)?;
        Ok(true)
    }

    /// Ends the line in progress.
    fn end_line(&mut self) -> Result<(), AllocError>
        requires counted { IsCounted self.old }
        requires fits { self.old.line + 1 < 2 ^ 64 }
        ensures ends { OnOk result ((left : Progress) → Holds self.old left → Holds self.new (after_byte left 10)) }
        ensures counted { OnOk result (IsCounted self.new) }
        ensures line { OnOk result (self.new.line ≡ self.old.line + 1) }
        ensures mode { self.new.mode ≡ self.old.mode }
    {
        let is_added = self.add_line()?;
        self.ended += u64::from(is_added);
        self.line += 1;
        self.open_line.clear();
        Ok(())
    }

    /// Takes the bytes up to and with the first line feed, or all of them, and answers how many.
    fn take_line(&mut self, rest: &[u8]) -> Result<usize, AllocError>
        requires counted { IsCounted self.old }
        requires fits { self.old.line + length rest.now < 2 ^ 64 }
        requires some { 0 < length rest.now }
        ensures count { IfOk result (λ n. (0 < n) × (n ≤ length rest.now)) }
        ensures takes { IfOk result (λ n. (bytes : List ℕ) → Holds self.old (left_by bytes) → NoMark (left_by bytes) rest.now
            → GoesOn self.new bytes (take n rest.now)) }
        ensures counted { OnOk result (IsCounted self.new) }
        ensures line { IfOk result (λ n. self.new.line ≤ self.old.line + n) }
        ensures mode { self.new.mode ≡ self.old.mode }
    {
        let end = line_end(rest);
        self.open_line.extend(&rest[..end])?;
        if end == rest.len() {
            return Ok(end);
        }
        self.end_line()?;
        Ok(end + 1)
    }

    /// Takes bytes from the front of the piece, up to and with the first `#` that completes a block, or all of them.
    /// Answers how many, and the block. After an `Err` the cutter is of no use.
    pub fn read(&mut self, piece: &[u8]) -> Result<(usize, Option<Block>), AllocError>
        requires counted { IsCounted self.old }
        requires fits { self.old.line + length piece.now < 2 ^ 64 }
        ensures count { IfOk result (λ taken. taken.0 ≤ length piece.now) }
        ensures cuts { IfOk result (λ taken. (bytes : List ℕ) → Holds self.old (left_by bytes)
            → Cuts self.old self.new bytes piece.now taken.0 taken.1) }
        ensures counted { OnOk result (IsCounted self.new) }
        ensures mode { self.new.mode ≡ self.old.mode }
    {
        let mut taken = 0;
        while taken < piece.len() {
            let rest = &piece[taken..];
            if let Some(mark) = self.mark_in(rest) {
                let block = self.begin_next(mark)?;
                return Ok((taken + mark.len(), Some(block)));
            }
            taken += self.take_line(rest)?;
        }
        Ok((taken, None))
    }

    /// Gives the line in progress to the block in progress, where it has bytes.
    fn add_last_line(&mut self) -> Result<(), AllocError>
        ensures adds { OnOk result ((left : Progress) → Holds self.old left → length left.ended ≤ left.line
            → HoldsBlock self.new (left.line - length left.ended) (with_open left.open_line left.ended)) }
        ensures kept { KeepsPlace self.old self.new }
    {
        if self.open_line.is_empty() {
            return Ok(());
        }
        let _is_added = self.add_line()?;
        Ok(())
    }

    /// Ends the text, and answers its last block, if there is one. The cutter is of no use from then on.
    pub fn end(&mut self) -> Result<Option<Block>, AllocError>
        requires { IsCounted self.old }
        ensures last { IfOk result (λ last. (bytes : List ℕ) → Holds self.old (left_by bytes)
            → Continues (complete bytes) (blocks bytes) last ⊎ Completes self.old.mode (complete bytes) (blocks bytes) last) }
        ensures mode { self.new.mode ≡ self.old.mode }
    {
        self.add_last_line()?;
        if self.draft.is_graph() {
            let block = self.complete()?;
            Ok(Some(block))
        } else {
            Ok(None)
        }
    }
}
