//! The words of the command line, and the solve or the check that they ask for.
ghost use Rattle.std.specs.Prelude.{◌≡◌, ◌≢◌, ℕ, ◌+◌, ◌<◌, ◌≤◌, List, [], ◌∷◌, ◌++◌, codes, decimal, length, slice_get, take, IfSome, IfNone, OnOk, OnErr, Some, None};
ghost use Rattle.exact_math.specs.Orders.{IsOrder, IsCapacity};
ghost use Rattle.fmm_program.specs.Forms.{IsCheck, IsNoCheck, IsSolve, IsNoSolve};
ghost use Rattle.fmm_program.specs.Workers.{AreWithWorkers, HasWorkers};

use io_ports::Memory;
use limits::MOST_WORKERS;
use number_text::read_uint;
use std::alloc::Global;
use std::marker::Model;

/// The words after the program's name. A contract sees the list that has, for each word in
/// order, the list of its bytes.
#[derive(Drop)]
pub struct Words {
    words: Vec<String>,
}

impl Model for Words {
    ghost use Rattle.std.specs.Prelude.{ℕ, List, map, string_bytes};

    ghost Value = { List (List ℕ) };

    ghost view = { λ w. map string_bytes w.words.items };
}

impl Words {
    /// No words. It takes no memory.
    pub fn new(alloc: Global) -> Words
        ensures { result ≡ [] }
    {
        Words {
            words: Vec::new(alloc),
        }
    }

    /// Appends a word.
    pub fn push(&mut self, alloc: Global, word: &str) -> Result<(), Memory>
        ensures pushed { OnOk result (self.new ≡ self.old ++ word.now ∷ []) }
        ensures kept { OnErr result (self.new ≡ self.old) }
    {
        let Ok(text) = String::from_str(alloc, word) else {
            return Err(Memory);
        };
        match self.words.push(text) {
            Ok(()) => Ok(()),
            Err(_) => Err(Memory),
        }
    }

    /// How many words there are.
    pub fn count(&self) -> usize
        ensures { result ≡ length self.now }
    {
        self.words.len()
    }

    /// The k-th word, counted from 0.
    pub fn word(&self, k: usize) -> &str
        requires { k < length self.now }
        ensures { slice_get self.now k ≡ Some result.now }
    {
        self.words[k].as_str()
    }
}

/// The command `solve ORDER CAP FILE [WORKERS]`.
#[derive(Clone, Copy, Debug, PartialEq, Eq)]
pub(crate) struct SolveCommand<'a> {
    pub(crate) order: u32,
    pub(crate) cap: u32,
    pub(crate) file: &'a str,
    pub(crate) workers: u32,
}

/// The number whose decimal a word is, where it is at least `least` and at most `most`.
pub(crate) fn number_in(word: &str, least: u32, most: u32) -> Option<u32>
    ensures some { IfSome result (λ n. (word.now ≡ decimal n) × (least ≤ n) × (n ≤ most)) }
    ensures none { IfNone result ((n : ℕ) → least ≤ n → n ≤ most → word.now ≢ decimal n) }
{
    let number = read_uint(word.as_bytes())?;
    if number < u64::from(least) || u64::from(most) < number {
        return None;
    }
    Some(number as u32)
}

/// The order whose decimal a word is.
pub(crate) fn order_of(word: &str) -> Option<u32>
    ensures some { IfSome result (λ n. (word.now ≡ decimal n) × IsOrder n) }
    ensures none { IfNone result ((n : ℕ) → IsOrder n → word.now ≢ decimal n) }
{
    let number = number_in(word, 4, 32)?;
    match number {
        4 | 8 | 16 | 24 | 32 => Some(number),
        _ => None,
    }
}

/// The capacity whose decimal a word is.
pub(crate) fn capacity_of(word: &str) -> Option<u32>
    ensures some { IfSome result (λ n. (word.now ≡ decimal n) × IsCapacity n) }
    ensures none { IfNone result ((n : ℕ) → IsCapacity n → word.now ≢ decimal n) }
{
    number_in(word, 8, 1024)
}

/// The number of workers that stands behind the first words, so many as `front`, and 1 where there are no further words; `None` where
/// something else stands there.
pub(crate) fn workers_behind(words: &Words, front: usize) -> Option<u32>
    requires { front ≤ length words.now }
    ensures some { IfSome result (HasWorkers words.now (take front words.now)) }
    ensures none { IfNone result ((first : List (List ℕ)) → length first ≡ front → AreWithWorkers words.now first → ⊥) }
{
    if words.count() == front {
        return Some(1);
    }
    let workers = number_in(words.word(front), 1, MOST_WORKERS)?;
    if words.count() != front + 1 {
        return None;
    }
    Some(workers)
}

/// The solve that the words ask for; `None` where they ask for none.
pub(crate) fn asked_solve(words: &Words) -> Option<SolveCommand<'_>>
    ensures some { IfSome result (λ c. IsSolve words.now c.order c.cap c.file.now
        × HasWorkers words.now (codes "solve" ∷ decimal c.order ∷ decimal c.cap ∷ c.file.now ∷ []) c.workers) }
    ensures none { IfNone result (IsNoSolve words.now) }
{
    if words.count() < 4 || words.word(0) != "solve" {
        return None;
    }
    let order = order_of(words.word(1))?;
    let cap = capacity_of(words.word(2))?;
    let file = words.word(3);
    let workers = workers_behind(words, 4)?;
    Some(SolveCommand {
        order,
        cap,
        file,
        workers,
    })
}

/// The command `check FILE`.
#[derive(Clone, Copy, Debug, PartialEq, Eq)]
pub(crate) struct CheckCommand<'a> {
    pub(crate) file: &'a str,
}

/// The check that the words ask for; `None` where they ask for none.
pub(crate) fn asked_check(words: &Words) -> Option<CheckCommand<'_>>
    ensures some { IfSome result (λ c. IsCheck words.now c.file.now) }
    ensures none { IfNone result (IsNoCheck words.now) }
{
    if words.count() != 2 || words.word(0) != "check" || words.word(1) == "-" {
        return None;
    }
    Some(CheckCommand {
        file: words.word(1),
    })
}
