//! Generated histories: the same lines for the same seed, everywhere.
#![tactic(auto)]

ghost use Rattle.std.specs.Prelude.{◌≡◌, ℕ, ◌+◌, ◌-◌, ◌<◌, ◌≤◌, [], ◌∷◌, ◌++◌, length, min, IfOk, OnOk};
ghost use Rattle.history_gen.specs.Generated.{age_of, value_of_age, line_with, line_on, lines_of};
ghost use Rattle.history_gen.specs.LastWrites.{AreLastThree, AreLastWrites};

use seeded_words::Words;
use stale_model::{Kind, Line, List, Memory};
use std::alloc::Global;

mod laws;

pub use crate::laws::generated_lines_read_back;

/// The history of `ops` operations on `keys` keys that this seed gives, in the order of their starts.
///
/// The words, of 32 bits, are those of the generator `Pcg32` (O'Neill, 2014), made by
/// `seed_from_u64` of the seed. Operation number i, counted from 1, takes the next three: a, b, c.
///
/// - Its key is a mod `keys`, its client is i mod 8, it starts at tick 10 × i and finishes at tick
///   10 × i + 1 + (7 × i mod 40).
/// - It is a write, of value i, where its key has no write yet or b is even. Else it is a read.
/// - The age of a read is its key mod 3 where c mod 16 is 0, and 0 else; where the key has at most
///   that many writes so far, it is the number of these writes less one. The read returns the value
///   of the write of its key that is as many before the newest as the age says.
///
/// The error is `Memory`, where memory runs out.
pub fn gen_history(alloc: Global, seed: u64, ops: u32, keys: u32) -> Result<List<Line>, Memory>
    requires { 1 ≤ keys }
    ensures { IfOk result (λ lines. lines ≡ lines_of seed keys ops) }
{
    let mut generator = Generator::new(alloc, seed, ops, keys)?;
    for i in 0..ops {
        generator.add_line(i + 1, keys)?;
    }
    Ok(List::from_vec(generator.lines))
}

// What is known between two operations.
#[derive(Drop)]
struct Generator {
    words: Words,
    // The last three values written to each key, the newest first; 0 stands for none.
    last_writes: Vec<[u32; 3]>,
    lines: Vec<Line>,
}

impl Generator {
    ghost use Rattle.history_gen.specs.Generator.{HasMade};

    // Before the first operation.
    fn new(alloc: Global, seed: u64, ops: u32, keys: u32) -> Result<Generator, Memory>
        ensures { IfOk result (HasMade seed keys 0) }
    {
        Ok(Generator {
            words: Words::of_seed(seed),
            last_writes: vec![in alloc; [0; 3]; keys as usize].map_err(|_| Memory)?,
            lines: Vec::with_capacity(alloc, ops as usize).map_err(|_| Memory)?,
        })
    }

    // Adds the line of operation number i.
    fn add_line(&mut self, i: u32, keys: u32) -> Result<(), Memory>
        requires keys { 1 ≤ keys }
        requires slots { length self.old.last_writes.items ≡ keys }
        ensures { (seed n : ℕ) → i ≡ n + 1 → HasMade seed keys n self.old
            → OnOk result (HasMade seed keys i self.new) }
    {
        let key = self.words.draw() % keys;
        let kind_word = self.words.draw();
        let age_word = self.words.draw();
        let line = line_on(i, key, self.last_writes[key as usize], kind_word, age_word);
        note(&mut self.last_writes, &line);
        self.lines.push(line).map_err(|_| Memory)?;
        Ok(())
    }
}

// Line number i on a key whose last writes these are.
fn line_on(i: u32, key: u32, last: [u32; 3], kind_word: u32, age_word: u32) -> Line
    ensures key { result.key ≡ key }
    ensures written { result.kind ≡ Kind.Write → result.value ≡ i }
    ensures line { (values : List ℕ) → AreLastThree values last
        → result ≡ line_on i key values kind_word age_word }
{
    if last[0] == 0 || kind_word % 2 == 0 {
        line_with(i, key, Kind::Write, i)
    } else {
        let age = age_of(key, age_word);
        line_with(i, key, Kind::Read, value_of_age(age, last))
    }
}

// Line number i, with this kind and value.
fn line_with(i: u32, key: u32, kind: Kind, value: u32) -> Line
    ensures { result ≡ line_with i key kind value }
{
    let number = u64::from(i);
    Line {
        client: i % 8,
        kind,
        key,
        value,
        start: 10 * number,
        finish: 10 * number + 1 + 7 * number % 40,
    }
}

// How many writes a read of this key goes back.
fn age_of(key: u32, age_word: u32) -> u32
    ensures value { result ≡ age_of key age_word }
    ensures few { result < 3 }
{
    if age_word % 16 == 0 { key % 3 } else { 0 }
}

// The value of the write that is so many before the newest, or of the first write.
fn value_of_age(age: u32, last: [u32; 3]) -> u32
    requires { age < 3 }
    ensures { (values : List ℕ) → AreLastThree values last → result ≡ value_of_age age values }
{
    last[age.min(oldest(last)) as usize]
}

// The place of the oldest write among the last three.
fn oldest(last: [u32; 3]) -> u32
    ensures within { result < 3 }
    ensures place { (values : List ℕ) → AreLastThree values last
        → result ≡ min 2 (length values - 1) }
{
    if last[1] == 0 {
        0
    } else if last[2] == 0 {
        1
    } else {
        2
    }
}

// Notes a line that is a write among the last writes of its key.
fn note(last_writes: &mut Vec<[u32; 3]>, line: &Line)
    requires { line.now.key < length last_writes.old.items }
    ensures size { length last_writes.new.items ≡ length last_writes.old.items }
    ensures noted { (before : List Line) → (line.now.kind ≡ Kind.Write → 0 < line.now.value)
        → AreLastWrites before last_writes.old.items
        → AreLastWrites (before ++ line.now ∷ []) last_writes.new.items }
{
    let key = line.key as usize;
    match line.kind {
        Kind::Read => {}
        Kind::Write => {
            let [newest, second, _] = last_writes[key];
            last_writes[key] = [line.value, newest, second];
        }
    }
}

#[cfg(test)]
mod tests;
