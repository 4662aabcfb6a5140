//! A certificate as it is kept while its lines come, one by one.
ghost use Rattle.std.specs.Prelude.{◌≡◌, ◌<◌, ℕ, List, ℤ, [], ◌∷◌, length, pos, IfSome, IfNone, IsTrue, ◌↔◌};
ghost use Rattle.cert_text.specs.Inside.{head_of, node_numbers};
ghost use Rattle.cert_text.specs.Lines.{Head, Line, letter_word};
ghost use Rattle.cert_text.specs.Sections.{IsHead, IsFormOf, AreInRange};
ghost use Rattle.cert_text.specs.Storage.{IsLineRead, Pushes, no_lines};
ghost use Rattle.cert_text.specs.declared.section.Section.TheVariants.{Node, At, Multipole, Entry as EntryLine, Local, Target};

use crate::Section;
use crate::local_rows::LocalRows;
use crate::range::{MOST_LOCAL, MOST_MULTIPOLE, are_ends, below, most_target, parent_of};
use crate::rows::Rows;
use letters::{Entry, Letter};
use limits::grid_of;
use std::alloc::{AllocError, Global};
use std::marker::Model;

/// What line 1 says: the version of the points, the order, and how many points, targets, cells and entries there are.
#[derive(Clone, Copy)]
pub(crate) struct Header {
    pub(crate) version: u8,
    pub(crate) order: u32,
    pub(crate) points: u64,
    pub(crate) targets: u64,
    pub(crate) cells: u64,
    pub(crate) entries: u64,
}

/// What the line of a node says: its parent, and its level, column and row.
#[derive(Clone, Copy)]
pub(crate) struct NodeLine {
    pub(crate) parent: usize,
    pub(crate) level: u8,
    pub(crate) i: u32,
    pub(crate) j: u32,
}

/// The lines so far. A row keeps its boxes, none for a zero row that is given by `-`; a target has its counts as a second box.
/// Memory is taken section by section, for no more lines than the text can hold.
#[derive(Drop)]
pub(crate) struct Stored {
    pub(crate) header: Header,
    pub(crate) nodes: Vec<NodeLine>,
    pub(crate) ats: Vec<u32>,
    pub(crate) multipoles: Rows,
    pub(crate) entries: Vec<Entry>,
    pub(crate) locals: LocalRows,
    pub(crate) targets: Rows,
}

impl Model for Stored {
    ghost use Rattle.cert_text.specs.Certificate.{Certificate};

    ghost Value = { Certificate };

    ghost use Rattle.cert_text.specs.Kept.{seen, is_kept};

    ghost view = { seen };

    ghost invariant = { is_kept };
}

/// The node of these four numbers, where they are in range for the n-th node.
fn node_from(
    header: Header,
    n: usize,
    parent: i128,
    level: i128,
    i: i128,
    j: i128,
) -> Option<NodeLine>
    ensures some { IfSome result (λ node. AreInRange (head_of header) Node n (parent ∷ level ∷ i ∷ j ∷ [])
        × (node_numbers node ≡ parent ∷ level ∷ i ∷ j ∷ [])) }
    ensures none { IfNone result (AreInRange (head_of header) Node n (parent ∷ level ∷ i ∷ j ∷ []) → ⊥) }
{
    let parent = parent_of(n, parent)?;
    let level = below(u64::from(grid_of(header.version)) + 1, level)? as u8;
    let side = 1 << level;
    Some(NodeLine {
        parent,
        level,
        i: below(side, i)? as u32,
        j: below(side, j)? as u32,
    })
}

/// The node of these numbers, where they are in range for the n-th node.
fn node_of(header: Header, n: usize, numbers: &[i128]) -> Option<NodeLine>
    ensures some { IfSome result (λ node. AreInRange (head_of header) Node n numbers.now × (node_numbers node ≡ numbers.now)) }
    ensures none { IfNone result (AreInRange (head_of header) Node n numbers.now → ⊥) }
{
    match numbers {
        [parent, level, i, j] => node_from(header, n, *parent, *level, *i, *j),
        _ => None,
    }
}

/// The node of a point, where the number is in range.
fn at_of(header: Header, k: usize, numbers: &[i128]) -> Option<u32>
    requires { IsHead (head_of header) }
    ensures some { IfSome result (λ at. AreInRange (head_of header) At k numbers.now × (pos at ∷ [] ≡ numbers.now)) }
    ensures none { IfNone result (AreInRange (head_of header) At k numbers.now → ⊥) }
{
    match numbers {
        [at] => Some(below(header.cells, *at)? as u32),
        _ => None,
    }
}

/// The letter that a word is; X for any other word.
fn letter_of(word: &[u8]) -> Letter
    ensures { (letter : Letter) → word.now ≡ letter_word letter → result ≡ letter }
{
    match word {
        b"u" => Letter::U,
        b"v" => Letter::V,
        b"w" => Letter::W,
        _ => Letter::X,
    }
}

/// The entry of a letter and of two numbers, where they are in range for the e-th entry.
fn entry_from(header: Header, e: usize, letter: Letter, b: i128, c: i128) -> Option<Entry>
    requires { IsHead (head_of header) }
    ensures some { IfSome result (λ entry. AreInRange (head_of header) EntryLine e (b ∷ c ∷ []) × (entry.letter ≡ letter)
        × (pos entry.b ∷ pos entry.c ∷ [] ≡ b ∷ c ∷ [])) }
    ensures none { IfNone result (AreInRange (head_of header) EntryLine e (b ∷ c ∷ []) → ⊥) }
{
    Some(Entry {
        letter,
        b: below(header.cells, b)? as usize,
        c: below(header.cells, c)? as usize,
    })
}

/// The entry of a letter and of these numbers, where they are in range for the e-th entry.
fn entry_of(header: Header, e: usize, letter: Letter, numbers: &[i128]) -> Option<Entry>
    requires { IsHead (head_of header) }
    ensures some { IfSome result (λ entry. AreInRange (head_of header) EntryLine e numbers.now × (entry.letter ≡ letter)
        × (pos entry.b ∷ pos entry.c ∷ [] ≡ numbers.now)) }
    ensures none { IfNone result (AreInRange (head_of header) EntryLine e numbers.now → ⊥) }
{
    match numbers {
        [b, c] => entry_from(header, e, letter, *b, *c),
        _ => None,
    }
}

/// Whether the numbers are in range for a local row: none, or a radius and ends.
fn is_local(numbers: &[i128]) -> bool
    ensures { (h : Head) (n : ℕ) → IsTrue result ↔ AreInRange h Local n numbers.now }
{
    match numbers {
        [] => true,
        [radius, ends @ ..] => 0 <= *radius
            && *radius <= MOST_LOCAL as i128
            && are_ends(MOST_LOCAL, ends),
    }
}

/// The least length of a line of the section, with its line feed: `node 0 0 0 0`, `at 0`, `m -`, `u 0 0`, `l -`, `t 0 0 0 0 0 0 0 0` and `end`.
fn least_length(section: Section) -> usize
    ensures { 0 < result }
{
    match section {
        Section::Node => 13,
        Section::At => 5,
        Section::Multipole | Section::Local | Section::End => 4,
        Section::Entry => 6,
        Section::Target => 18,
    }
}

impl Stored {
    /// Takes the memory for the lines of a section, as many of them as a text of so many bytes can hold: by the least length of such a line,
    /// and by the least of a box, whose four numbers have two bytes each.
    pub(crate) fn make_room(
        &mut self,
        section: Section,
        lines: u64,
        bytes: usize,
    ) -> Result<(), AllocError>
        ensures { self.new ≡ self.old }
    {
        let lines = lines.min((bytes / least_length(section)) as u64) as usize;
        let order = self.header.order as usize;
        let boxes = lines.saturating_mul(order).min(bytes / 8);
        match section {
            Section::Node => self.nodes.reserve(lines),
            Section::At => self.ats.reserve(lines),
            Section::Multipole => self.multipoles.make_room(lines, boxes),
            Section::Entry => self.entries.reserve(lines),
            Section::Local => self.locals.make_room(lines, boxes),
            Section::Target => self
                .targets
                .make_room(lines, lines.saturating_mul(2).min(bytes / 8)),
            Section::End => Ok(()),
        }
    }

    /// Line 1 alone. It takes no memory.
    pub(crate) fn new(alloc: Global, header: Header) -> Stored
        requires { IsHead (head_of header) }
        ensures { result ≡ no_lines (head_of header) }
    {
        Stored {
            header,
            nodes: Vec::new(alloc),
            ats: Vec::new(alloc),
            multipoles: Rows::new(alloc),
            entries: Vec::new(alloc),
            locals: LocalRows::new(alloc),
            targets: Rows::new(alloc),
        }
    }

    /// Appends the line of a node where it is in range.
    fn push_node(&mut self, numbers: &[i128]) -> Result<bool, AllocError>
        ensures { (word : List ℕ) (l : Line) → IsLineRead self.old.head Node word numbers.now l → Pushes Node l self.old self.new result }
    {
        let Some(node) = node_of(self.header, self.nodes.len(), numbers) else {
            return Ok(false);
        };
        self.nodes.push(node)?;
        Ok(true)
    }

    /// Appends the line of a point's node where it is in range.
    fn push_at(&mut self, numbers: &[i128]) -> Result<bool, AllocError>
        ensures { (word : List ℕ) (l : Line) → IsLineRead self.old.head At word numbers.now l → Pushes At l self.old self.new result }
    {
        let Some(at) = at_of(self.header, self.ats.len(), numbers) else {
            return Ok(false);
        };
        self.ats.push(at)?;
        Ok(true)
    }

    /// Appends the line of a multipole row where it is in range.
    fn push_multipole(&mut self, numbers: &[i128]) -> Result<bool, AllocError>
        requires { (word : List ℕ) × (l : Line) × IsLineRead self.old.head Multipole word numbers.now l }
        ensures { (word : List ℕ) (l : Line) → IsLineRead self.old.head Multipole word numbers.now l → Pushes Multipole l self.old self.new result }
    {
        if !are_ends(MOST_MULTIPOLE, numbers) {
            return Ok(false);
        }
        self.multipoles.push(numbers)?;
        Ok(true)
    }

    /// Appends the line of an entry where it is in range.
    fn push_entry(&mut self, word: &[u8], numbers: &[i128]) -> Result<bool, AllocError>
        ensures { (l : Line) → IsLineRead self.old.head EntryLine word.now numbers.now l → Pushes EntryLine l self.old self.new result }
    {
        let letter = letter_of(word);
        let Some(entry) = entry_of(self.header, self.entries.len(), letter, numbers) else {
            return Ok(false);
        };
        self.entries.push(entry)?;
        Ok(true)
    }

    /// Appends the line of a local row where it is in range.
    fn push_local(&mut self, numbers: &[i128]) -> Result<bool, AllocError>
        requires { (word : List ℕ) × (l : Line) × IsLineRead self.old.head Local word numbers.now l }
        ensures { (word : List ℕ) (l : Line) → IsLineRead self.old.head Local word numbers.now l → Pushes Local l self.old self.new result }
    {
        if !is_local(numbers) {
            return Ok(false);
        }
        self.locals.push(numbers)?;
        Ok(true)
    }

    /// Appends the line of a target where it is in range.
    fn push_target(&mut self, numbers: &[i128]) -> Result<bool, AllocError>
        requires { (word : List ℕ) × (l : Line) × IsLineRead self.old.head Target word numbers.now l }
        ensures { (word : List ℕ) (l : Line) → IsLineRead self.old.head Target word numbers.now l → Pushes Target l self.old self.new result }
    {
        if !are_ends(most_target(grid_of(self.header.version)), numbers) {
            return Ok(false);
        }
        self.targets.push(numbers)?;
        Ok(true)
    }

    /// Appends a line to a section where its numbers are in range, and says whether they are. The word and the numbers are what was read of it.
    ///
    /// Condition: they are those of a line of the section's form.
    pub(crate) fn push(
        &mut self,
        section: Section,
        word: &[u8],
        numbers: &[i128],
    ) -> Result<bool, AllocError>
        requires { (l : Line) × IsLineRead self.old.head section word.now numbers.now l }
        ensures { (l : Line) → IsLineRead self.old.head section word.now numbers.now l → Pushes section l self.old self.new result }
    {
        match section {
            Section::Node => self.push_node(numbers),
            Section::At => self.push_at(numbers),
            Section::Multipole => self.push_multipole(numbers),
            Section::Entry => self.push_entry(word, numbers),
            Section::Local => self.push_local(numbers),
            Section::Target => self.push_target(numbers),
            Section::End => Ok(true),
        }
    }
}
