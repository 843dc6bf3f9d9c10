use crate::refusing::refuse;
use crate::{Arrival, Lane};
use crossbeam_channel::TrySendError;
use std::alloc::Global;
use std::collections::VecDeque;
use std::io::{Read, Write};
use std::sync::Wait;

/// The end of the line at which connections are handed on. Nobody waits here: what the line has no room for is kept.
#[derive(Drop)]
pub(crate) struct Line<S: Drop> {
    to: Lane<S>,
    kept: VecDeque<Arrival<S>>,
    has_ended: bool,
}

impl<S: Drop> Line<S> {
    pub(crate) fn new(alloc: Global, to: Lane<S>) -> Self {
        Line {
            to,
            kept: VecDeque::new(alloc),
            has_ended: false,
        }
    }

    /// Whether all that was handed on is in the line.
    pub(crate) fn is_clear(&self) -> bool {
        self.kept.is_empty()
    }

    /// How many connections of this listener wait in the line.
    pub(crate) fn waiting(&self) -> usize {
        self.to.waiting()
    }

    /// The listener's end of the line.
    pub(crate) fn lane(&self) -> &Lane<S> {
        &self.to
    }

    /// Whether nobody takes connections any more.
    pub(crate) fn has_ended(&self) -> bool {
        self.has_ended
    }
}

impl<S: Read + Write + Drop> Line<S> {
    /// Hands the connection on, after those that are kept. One that there is no memory for is refused.
    pub(crate) fn put<R: Wait>(&mut self, rt: &R, arrival: Arrival<S>) {
        if !self.kept.is_empty() {
            self.keep(arrival);
        } else if let Some(arrival) = self.send(rt, arrival) {
            self.keep(arrival);
        }
    }

    fn keep(&mut self, arrival: Arrival<S>) {
        if let Err(failed) = self.kept.push_back(arrival) {
            refuse(failed.value.stream);
        }
    }

    /// Hands on those that are kept, as far as the line has room.
    pub(crate) fn flush<R: Wait>(&mut self, rt: &R) {
        for _ in 0..self.kept.len() {
            let Some(arrival) = self.kept.pop_front() else {
                break;
            };
            if let Some(arrival) = self.send(rt, arrival) {
                let _ = self.kept.push_front(arrival);
                break;
            }
        }
    }

    /// Puts the connection into the line, if that has room; else it is given back.
    fn send<R: Wait>(&mut self, rt: &R, arrival: Arrival<S>) -> Option<Arrival<S>> {
        match self.to.try_send(rt, arrival) {
            Ok(()) => None,
            Err(TrySendError::Full(arrival)) => Some(arrival),
            Err(TrySendError::Disconnected(_)) => {
                self.has_ended = true;
                None
            }
            Err(TrySendError::OutOfMemory(arrival)) => {
                refuse(arrival.stream);
                None
            }
        }
    }
}
