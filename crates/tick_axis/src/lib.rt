//! The time axis of a picture: where ticks stand on it, which of them are marked, and how their numbers are written.
#![tactic(auto)]

ghost use Rattle.std.specs.Prelude.{◌≡◌, ◌<◌, IfOk, ◌≤◌};
ghost use Rattle.tick_axis.specs.Marks.{round_number};

pub mod examples;
mod groups;
pub mod laws;

pub use groups::push_grouped;
use std::alloc::{AllocError, Global};

/// The most marks that an axis has.
const MOST_MARKS: u128 = 10;

/// A time axis: the ticks from `first` to `last` stand from `left` on, over so much as `width`.
///
/// `left` and `width` are units of the picture, at most 65536. `first` and `last` are ticks, and `last`
/// isn't before `first`.
#[derive(Clone, Copy, Debug, PartialEq, Eq)]
pub struct Scale {
    pub left: u64,
    pub width: u64,
    pub first: u64,
    pub last: u64,
}

// A round number, counted from 0: 1, 2, 5, 10, 20, 50 and so on.
fn round_number(place: u32) -> u64
    requires { place < 56 }
    ensures exact { result ≡ round_number place }
    ensures positive { 0 < result }
{
    let digit = match place % 3 {
        0 => 1,
        1 => 2,
        _ => 5,
    };
    digit * 10u64.pow(place / 3)
}

impl Scale {
    ghost use Rattle.tick_axis.specs.Places.{IsScale, tick_place};
    ghost use Rattle.tick_axis.specs.Marks.{mark_count, step_of, multiples, marks_of, base_of};

    /// Where a tick stands, in units of the picture: in proportion between the two ends, rounded down.
    /// A tick before the first stands where the first does, and one after the last where the last does;
    /// where there is one tick only, it stands at the left.
    pub fn place(&self, tick: u64) -> u64
        requires { IsScale self.now }
        ensures { result ≡ tick_place self.now tick }
    {
        if self.first == self.last {
            return self.left;
        }
        let ticks = tick.clamp(self.first, self.last) - self.first;
        let span = self.last - self.first;
        let units = u128::from(ticks) * u128::from(self.width) / u128::from(span);
        self.left + units as u64
    }

    // How many multiples of a step there are from the first tick to the last.
    fn mark_count(&self, step: u64) -> u128
        requires ordered { IsScale self.now }
        requires positive { 0 < step }
        ensures { result ≡ mark_count self.now step }
    {
        u128::from(self.last / step) + 1 - u128::from(self.first.div_ceil(step))
    }

    /// The ticks from one mark to the next: the least of 1, 2 and 5 times a power of ten whose multiples
    /// are at most ten from the first tick to the last.
    pub fn step(&self) -> u64
        requires { IsScale self.now }
        ensures exact { result ≡ step_of self.now }
        ensures positive { 0 < result }
    {
        let mut place = 0;
        while self.mark_count(round_number(place)) > MOST_MARKS {
            place += 1;
        }
        round_number(place)
    }

    /// The tick from which the marks count: 0 while the ticks are fewer than a thousand steps, then the
    /// greatest multiple of a hundred steps that isn't after the first tick.
    pub fn base(&self) -> u64
        requires { IsScale self.now }
        ensures exact { result ≡ base_of self.now }
        ensures before { result ≤ self.now.first }
    {
        let step = self.step();
        if self.last / 1000 < step {
            0
        } else {
            self.first - self.first % (100 * step)
        }
    }

    /// The ticks that are marked: the multiples of the step from the first tick to the last, rising.
    ///
    /// # Errors
    /// `AllocError` where memory ran out.
    pub fn marks(&self, alloc: Global) -> Result<Vec<u64>, AllocError>
        requires { IsScale self.now }
        ensures { IfOk result (λ marks. marks.items ≡ marks_of self.now) }
    {
        let step = self.step();
        let mut marks = Vec::new(alloc);
        for number in self.first.div_ceil(step)..=self.last / step {
            marks.push(number * step)?;
        }
        Ok(marks)
    }
}

#[cfg(test)]
mod tests;
