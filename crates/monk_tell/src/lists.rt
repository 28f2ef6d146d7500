//! Lists that print themselves.

ghost use Rattle.std.specs.Prelude.{Some};
ghost use Rattle.monk_tell.specs.Words.{numbers_text};

use crate::said::queue_word;
use monk_history::{From3, Next};
use std::fmt;

/// Seats, in order. Printed with a space before each.
#[derive(Debug, Drop)]
pub struct SeatList(pub Vec<u8>);

impl fmt::Display for SeatList {
    fn fmt<W: fmt::Write>(&self, f: &mut fmt::Formatter<W>) -> fmt::Result {
        for seat in &self.0 {
            write!(f, " {seat}")?;
        }
        Ok(())
    }
}

/// Whole numbers, in order. Printed with a space before each.
#[derive(Debug, Drop)]
pub struct NumberList(pub Vec<u64>);

impl fmt::Display for NumberList {
    ghost output = { λ s. Some (numbers_text s.0.items) };

    fn fmt<W: fmt::Write>(&self, f: &mut fmt::Formatter<W>) -> fmt::Result {
        for number in &self.0 {
            write!(f, " {number}")?;
        }
        Ok(())
    }
}

/// Seats that wait until a predicate holds, each with its predicate. Printed as ` 0 1, 2 0`.
#[derive(Debug, Drop)]
pub struct Waits(pub Vec<(u8, u8)>);

impl fmt::Display for Waits {
    fn fmt<W: fmt::Write>(&self, f: &mut fmt::Formatter<W>) -> fmt::Result {
        for (index, wait) in self.0.iter().enumerate() {
            let comma = if index > 0 { "," } else { "" };
            write!(f, "{comma} {} {}", wait.0, wait.1)?;
        }
        Ok(())
    }
}

/// Queues that aren't empty, each with its first seat. Printed as ` waiter 0, signaller 1`.
#[derive(Debug, Drop)]
pub struct FrontList(pub Vec<(From3, u8)>);

impl fmt::Display for FrontList {
    fn fmt<W: fmt::Write>(&self, f: &mut fmt::Formatter<W>) -> fmt::Result {
        for (index, front) in self.0.iter().enumerate() {
            let comma = if index > 0 { "," } else { "" };
            write!(f, "{comma} {} {}", queue_word(front.0), front.1)?;
        }
        Ok(())
    }
}

/// What a release may choose. Printed as `stay, waiter 2`.
#[derive(Debug, Drop)]
pub struct Nexts(pub Vec<Next>);

impl fmt::Display for Nexts {
    fn fmt<W: fmt::Write>(&self, f: &mut fmt::Formatter<W>) -> fmt::Result {
        for (index, next) in self.0.iter().enumerate() {
            let comma = if index > 0 { ", " } else { "" };
            write!(f, "{comma}{next}")?;
        }
        Ok(())
    }
}
