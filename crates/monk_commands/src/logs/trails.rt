//! Where the threads of a log are, step by step.

use crate::logs::trail::{Trail, WokenBy};
use monk_judge::{Place, Step};
use monk_logs::LogLine;
use std::alloc::{AllocError, Global};

/// Where the threads of a log are after some steps of a run.
#[derive(Drop)]
pub(crate) struct Trails {
    trails: Vec<Trail>,
    /// How many lines the steps tell.
    lines: usize,
}

impl Trails {
    /// Returns the trails after the steps.
    pub(crate) fn behind(alloc: Global, seats: u8, steps: &[Step]) -> Result<Trails, AllocError> {
        let trails = vec![in alloc; Trail::START; usize::from(seats)]?;
        let mut trails = Trails { trails, lines: 0 };
        for step in steps {
            trails.follow(*step);
        }
        Ok(trails)
    }

    /// Returns all of them, by their seats.
    pub(crate) fn all(&self) -> &[Trail] {
        &self.trails
    }

    /// Returns the trail of the seat.
    pub(crate) fn of(&self, seat: u8) -> Trail {
        let trail = self.trails.get(usize::from(seat));
        trail.copied().unwrap_or(Trail::START)
    }

    fn follow(&mut self, step: Step) {
        match step {
            Step::Tells(line, woken) => self.tell(line, woken),
            Step::RunsOut(seat) => self.end_wait(seat, true),
            Step::WakesUnasked(seat) => self.end_wait(seat, false),
        }
    }

    /// Follows a line, with the thread that its signal wakes.
    fn tell(&mut self, line: LogLine, woken: Option<u8>) {
        let index = self.lines;
        self.lines = index.saturating_add(1);
        match line {
            LogLine::Signal(seat, cond) => {
                self.signal(
                    cond,
                    WokenBy { seat, line: index },
                    woken.map(usize::from),
                    false,
                );
            }
            LogLine::Broadcast(seat, cond) => {
                self.signal(cond, WokenBy { seat, line: index }, None, true);
            }
            _ => self.move_by(line, index),
        }
    }

    /// The thread of the line moves by it.
    fn move_by(&mut self, line: LogLine, index: usize) {
        let Some(trail) = self.trails.get_mut(usize::from(line.seat())) else {
            return;
        };
        let since = Some(index);
        match line {
            LogLine::Enter(_) | LogLine::Resume(_) | LogLine::Lapse(_) => trail.go(
                Place::Active,
                index,
            ),
            LogLine::Leave(_) => *trail = Trail {
                since,
                ..Trail::START
            },
            LogLine::Wait(_, cond) => {
                let (place, waited) = (Place::Waiting(cond), since);
                *trail = Trail {
                    place,
                    since,
                    waited,
                    ..Trail::START
                };
            }
            LogLine::Signal(..) | LogLine::Broadcast(..) | LogLine::Until(..) | LogLine::Act(..) =>
                {}
        }
    }

    /// A signal comes to the condition, and wakes that thread; a broadcast wakes all.
    fn signal(&mut self, cond: u8, by: WokenBy, woken: Option<usize>, wakes_all: bool) {
        for (seat, trail) in self.trails.iter_mut().enumerate() {
            if trail.place == Place::Waiting(cond) {
                if wakes_all || woken == Some(seat) {
                    trail.wake(cond, by);
                } else {
                    trail.signals = trail.signals.saturating_add(1);
                }
            }
        }
    }

    /// The wait of the thread ends though nobody sent a signal.
    fn end_wait(&mut self, seat: u8, runs_out: bool) {
        if let Some(trail) = self.trails.get_mut(usize::from(seat)) {
            trail.end_wait(runs_out);
        }
    }
}
